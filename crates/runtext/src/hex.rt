// Bytes written in hexadecimal.
ghost use Rattle.std.specs.Prelude.{◌≡◌, IfOk, vec_items};
ghost use Rattle.std.specs.Option.{option_map};
ghost use Rattle.runtext.specs.Hex.{hex_bytes};

use std::alloc::{AllocError, Global};

// The bytes of pairs of hexadecimal digits, lower or upper case, with blanks anywhere; none where the text is not such
// pairs. Not by the kit's decoder: it takes no blanks, and has one error for bad digits and for want of memory.
pub fn bytes_from_hex(heap: Global, hex: &[u8]) -> Result<Option<Vec<u8>>, AllocError>
    ensures { IfOk result (λ v. option_map vec_items v ≡ hex_bytes hex.now) }
{
    let mut bytes = Vec::new(heap);
    let mut high = None;
    for c in hex {
        if *c == b' ' {
            continue;
        }
        let Some(digit) = char::from(*c).to_digit(16) else {
            return Ok(None);
        };
        match high {
            None => high = Some(digit),
            Some(first) => {
                bytes.push((16 * first + digit) as u8)?;
                high = None;
            }
        }
    }
    match high {
        None => Ok(Some(bytes)),
        Some(_) => Ok(None),
    }
}
