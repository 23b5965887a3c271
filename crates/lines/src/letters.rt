// The letters of an IT block.
ghost use Rattle.std.specs.Prelude.{◌≡◌, ◌≤◌};
ghost use Rattle.lines.specs.Lines.{letter_count as count_of};

// How many letters an IT block has behind the first: as many as bits lie above the mask's lowest set bit.
#[tactic(auto, using(crate::proofs::Lowest::letters_above))]
pub fn letter_count(mask: u32) -> usize
    ensures within { result ≤ 3 }
    ensures value { result ≡ count_of mask }
{
    3 - mask.trailing_zeros().min(3) as usize
}
