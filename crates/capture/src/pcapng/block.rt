//! Blocks.
ghost use Rattle.std.specs.Prelude.{◌≡◌, ◌+◌, ◌<◌, ◌≤◌, ◌^◌, ◌++◌, None, Ok, IfOk, IfErr, length};
ghost use Rattle.capture.specs.File.{ReturnsBy};
ghost use Rattle.capture.specs.Blocks.{block_bytes, head_of, next_of, order_at, size};
ghost use Rattle.capture.specs.SeenBlocks.{part};

use crate::pcap::{Order, first_u32, u32_at};
use crate::pcapng::fault::{Fault, Why};

/// The type of a section's header (section 4.1). It's the same in both byte orders.
pub const SECTION_HEADER: u32 = 0x0a0d_0d0a;

/// The number after the first length of a section's header, in the byte order of the section.
pub const BYTE_ORDER_MAGIC: u32 = 0x1a2b_3c4d;

/// The same number, as a host of the other byte order reads it.
const MAGIC_TURNED: u32 = 0x4d3c_2b1a;

/// Bytes of a block without a body.
const EMPTY_BLOCK: usize = 12;

/// A block (section 3.1): its type, and its body between the two lengths, with its padding to a multiple of 4.
#[derive(Clone, Copy, Debug)]
pub struct Block<'a> {
    /// The byte order of the numbers in its section.
    pub order: Order,
    /// Its type.
    pub kind: u32,
    pub body: &'a [u8],
}

/// Returns the byte order of the block that begins these bytes, in a section of this order.
fn order_of(current: Option<Order>, bytes: &[u8]) -> Result<Order, Fault>
    requires { 12 ≤ length bytes.now }
    ensures order { result ≡ order_at current bytes.now }
    ensures inside { IfErr result (λ f. f.offset ≤ 12) }
{
    if u32_at(current.unwrap_or(Order::Little), bytes, 0) != SECTION_HEADER {
        return match current {
            Some(order) => Ok(order),
            None => Err(Fault {
                why: Why::NoSection,
                offset: 0,
            }),
        };
    }
    match u32_at(Order::Little, bytes, 8) {
        BYTE_ORDER_MAGIC => Ok(Order::Little),
        MAGIC_TURNED => Ok(Order::Big),
        _ => Err(Fault {
            why: Why::BadMagic,
            offset: 8,
        }),
    }
}

/// Returns the byte order and the total length of the block that begins these bytes, at least 12, in a
/// section of this order; `None` is before the first section. A length is 12 or more, and a multiple of 4. Fails with
/// `NoSection`, `BadMagic` or `BadLength`, by the offset in these bytes.
#[tactic(auto, unfolding(crate::specs::Blocks::head_of))]
pub fn block_head(current: Option<Order>, bytes: &[u8]) -> Result<(Order, usize), Fault>
    requires { 12 ≤ length bytes.now }
    ensures found { result ≡ head_of current bytes.now }
    ensures inside { IfErr result (λ f. f.offset ≤ 12) }
    ensures long { IfOk result (λ r. 12 ≤ r.1) }
    ensures short { IfOk result (λ r. r.1 < 2 ^ 32) }
{
    let order = order_of(current, bytes)?;
    let len = u32_at(order, bytes, 4) as usize;
    if len < EMPTY_BLOCK || len % 4 != 0 {
        return Err(Fault {
            why: Why::BadLength,
            offset: 4,
        });
    }
    Ok((order, len))
}

/// Returns the block at the beginning of these bytes, in a section of this order, and the bytes after it. Fails with a
/// fault of the block, with the offset in these bytes.
#[tactic(auto, unfolding(crate::specs::Blocks::next_of, crate::specs::Blocks::head_of))]
pub fn first_block(current: Option<Order>, bytes: &[u8]) -> Result<(Block<'_>, &[u8]), Fault>
    ensures found { ReturnsBy (λ r. part r.0) result (next_of current bytes.now) }
    ensures spelled { IfOk result (λ r. bytes.now ≡ block_bytes (part r.0) ++ r.1.now) }
    ensures sized { IfOk result (λ r. length bytes.now ≡ size (part r.0) + length r.1.now) }
    ensures headed { IfOk result (λ r. head_of current bytes.now ≡ Ok (r.0.order, size (part r.0))) }
    ensures inside { IfErr result (λ f. f.offset ≤ length bytes.now) }
{
    if bytes.len() < EMPTY_BLOCK {
        return Err(Fault {
            why: Why::BlockCut,
            offset: 0,
        });
    }
    let order = order_of(current, bytes)?;
    let (kind, rest) = first_u32(order, bytes);
    let (total, rest) = first_u32(order, rest);
    let len = total as usize;
    if len < EMPTY_BLOCK || len % 4 != 0 {
        return Err(Fault {
            why: Why::BadLength,
            offset: 4,
        });
    }
    if bytes.len() < len {
        return Err(Fault {
            why: Why::BlockCut,
            offset: 4,
        });
    }
    let (body, rest) = rest.split_at(len - EMPTY_BLOCK);
    let (again, rest) = first_u32(order, rest);
    if again != total {
        return Err(Fault {
            why: Why::LengthsDiffer,
            offset: len - 4,
        });
    }
    Ok((Block { order, kind, body }, rest))
}
