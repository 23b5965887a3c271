// A closed page, which takes no more calls.
ghost use Rattle.std.specs.Prelude.{◌≡◌};

use sink::RoomSink;

#[derive(Drop)]
pub struct ClosedPage<S> {
    pub(crate) sink: S,
    pub(crate) count: u64,
}

impl<S: RoomSink> ClosedPage<S> {
    // How many lines the page has.
    pub fn count(&self) -> u64
        ensures value { result ≡ self.now.count }
    {
        self.count
    }

    // Gives the sink back.
    pub fn end(self) -> S
        ensures value { result ≡ self.sink }
    {
        let ClosedPage { sink, count: _ } = self;
        sink
    }
}
