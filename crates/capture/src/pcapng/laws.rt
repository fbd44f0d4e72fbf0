//! Laws of the definitions, for callers to cite: each is the contract of a function that does nothing.
ghost use Rattle.std.specs.Prelude.{◌≡◌, ◌≤◌, ◌++◌, List, ℕ, Ok, Option, length};
ghost use Rattle.capture.specs.declared.pcap.header.Order.{Order};
ghost use Rattle.capture.specs.Blocks.{IsBlock, IsInOrder, Part, block_bytes, head_of, next_of};

/// A block in the format's encoding, in either byte order, is read back, whatever follows it: a section's header
/// everywhere, and another block in a section of its order.
#[tactic(auto, using(crate::proofs::Spelled::block_again))]
pub fn blocks_are_read()
    ensures { (o : Option Order) (b : Part) (rest : List ℕ) → IsBlock b → IsInOrder o b
        → next_of o (block_bytes b ++ rest) ≡ Ok b }
{}

/// What the first 12 bytes of a block say doesn't depend on the bytes after them.
#[tactic(auto, using(crate::proofs::Heads::head_stays))]
pub fn heads_stay()
    ensures { (o : Option Order) (front more : List ℕ) → 12 ≤ length front
        → head_of o (front ++ more) ≡ head_of o front }
{}
