// What is said of the lines of a record that could not be read.
ghost use Rattle.std.specs.Prelude.{◌≡◌, ◌+◌, ◌-◌, ◌^◌, min, [], ◌++◌, codes, OnOk, OnErr, string_bytes};

use std::alloc::{AllocError, Global};

// The messages, each on a line of its own, and how many there are.
#[derive(Drop)]
pub struct Misreadings {
    pub text: String,
    pub count: u64,
}

impl Misreadings {
    // No message yet.
    pub fn none(heap: Global) -> Misreadings
        ensures text { string_bytes result.text ≡ [] }
        ensures count { result.count ≡ 0 }
    {
        Misreadings {
            text: String::new(heap),
            count: 0,
        }
    }

    // One message more, or nothing changed where memory is short.
    pub fn add(&mut self, heap: Global, message: &str) -> Result<(), AllocError>
        ensures text { OnOk result (string_bytes self.new.text ≡ string_bytes self.old.text ++ (message.now ++ codes "\n")) }
        ensures count { OnOk result (self.new.count ≡ min (self.old.count + 1) (2 ^ 64 - 1)) }
        ensures unchanged { OnErr result ((string_bytes self.new.text ≡ string_bytes self.old.text) × (self.new.count ≡ self.old.count)) }
    {
        let line = format!(in heap; "{message}\n")?;
        self.text.push_str(line.as_str())?;
        self.count = self.count.saturating_add(1);
        Ok(())
    }
}
