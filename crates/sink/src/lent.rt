// Lent memory of which a part is in use.
// Kept: tried as a struct inside the sink; `end`, which takes the sink by value, was then not covered by a proof.
ghost use Rattle.std.specs.Prelude.{◌≡◌, ◌+◌, ◌-◌, ◌<◌, ◌≤◌, min, cond, [], ◌∷◌, ◌++◌, length, take, nat_lt};
ghost use Rattle.sink.specs.Lent.{Filled};
ghost use Rattle.sink.specs.Outcome.{outcome, full_below};

use armv7::Fault;

// Copies a piece that there is room for behind the first `used` elements.
// Not inline: a copy of any length is long code, and would keep the writers of short pieces from being inline themselves.
#[inline(never)]
fn copy<T: Copy>(memory: &mut [T], used: usize, piece: &[T])
    requires { used + length piece.now ≤ length memory.old }
    ensures text { take (used + length piece.now) memory.new ≡ take used memory.old ++ piece.now }
    ensures rest { Filled memory.old used memory.new (used + length piece.now) }
{
    memory[used..used + piece.len()].copy_from_slice(piece);
}

// Puts a piece that there is room for behind the first `used` elements, and counts it to them: up to four elements one by one.
#[inline(always)]
fn put<T: Copy>(memory: &mut [T], used: &mut usize, piece: &[T])
    requires { used.old + length piece.now ≤ length memory.old }
    ensures count { used.new ≡ used.old + length piece.now }
    ensures text { take used.new memory.new ≡ take used.old memory.old ++ piece.now }
    ensures rest { Filled memory.old used.old memory.new used.new }
{
    let start = *used;
    match *piece {
        [a] => memory[start] = a,
        [a, b] => {
            memory[start] = a;
            memory[start + 1] = b;
        }
        [a, b, c] => {
            memory[start] = a;
            memory[start + 1] = b;
            memory[start + 2] = c;
        }
        [a, b, c, d] => {
            memory[start] = a;
            memory[start + 1] = b;
            memory[start + 2] = c;
            memory[start + 3] = d;
        }
        _ => copy(memory, start, piece),
    }
    *used = start + piece.len();
}

// The same of a piece of more than four elements: up to eight, four by four.
fn put_long<T: Copy>(memory: &mut [T], used: &mut usize, piece: &[T])
    requires long { 4 ≤ length piece.now }
    requires room { used.old + length piece.now ≤ length memory.old }
    ensures count { used.new ≡ used.old + length piece.now }
    ensures text { take used.new memory.new ≡ take used.old memory.old ++ piece.now }
    ensures rest { Filled memory.old used.old memory.new used.new }
{
    if piece.len() > 8 {
        return put(memory, used, piece);
    }
    put(memory, used, &piece[..4]);
    put(memory, used, &piece[4..]);
}

// Puts as much of a longer piece as there is room for.
#[cold]
#[inline(never)]
fn fill<T: Copy>(memory: &mut [T], used: &mut usize, piece: &[T])
    requires full { length memory.old < used.old + length piece.now }
    requires within { used.old ≤ length memory.old }
    ensures count { used.new ≡ length memory.old }
    ensures text { take used.new memory.new ≡ take used.old memory.old ++ take (length memory.old - used.old) piece.now }
    ensures rest { Filled memory.old used.old memory.new used.new }
{
    let left = memory.len() - *used;
    copy(memory, *used, &piece[..left]);
    *used = memory.len();
}

// Puts as much of the piece as there is room for behind the first `used` elements, counts it to them, and refuses a piece that is
// longer.
// Kept: short pieces by themselves, since with one copy for all lengths a line takes 214 instructions more, and misses its bar
// (docs/SPEED.md).
#[inline(always)]
pub(crate) fn append<T: Copy>(memory: &mut [T], used: &mut usize, piece: &[T]) -> Result<(), Fault>
    requires { used.old ≤ length memory.old }
    ensures count { used.new ≡ min (used.old + length piece.now) (length memory.old) }
    ensures text { take used.new memory.new ≡ take used.old memory.old ++ take (length memory.old - used.old) piece.now }
    ensures rest { Filled memory.old used.old memory.new used.new }
    ensures answer { outcome result ≡ full_below (length memory.old - used.old) (length piece.now) }
{
    if piece.len() > memory.len() - *used {
        fill(memory, used, piece);
        return Err(Fault::SinkFull);
    }
    if piece.len() > 4 {
        put_long(memory, used, piece);
    } else {
        put(memory, used, piece);
    }
    Ok(())
}

// Puts one element more behind the first `used`, and counts it to them, or refuses it where there is no room for it.
pub fn push<T: Copy>(memory: &mut [T], used: &mut usize, item: T) -> Result<(), Fault>
    ensures count { used.new ≡ cond (nat_lt used.old (length memory.old)) (used.old + 1) used.old }
    ensures size { length memory.new ≡ length memory.old }
    ensures text { take used.new memory.new ≡ take used.old memory.old ++ take (length memory.old - used.old) (item ∷ []) }
    ensures rest { Filled memory.old used.old memory.new used.new }
    ensures answer { outcome result ≡ full_below (length memory.old - used.old) 1 }
{
    if *used >= memory.len() {
        return Err(Fault::SinkFull);
    }
    memory[*used] = item;
    *used += 1;
    Ok(())
}
