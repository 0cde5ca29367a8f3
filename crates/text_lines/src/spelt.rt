//! Bytes in hexadecimal.
ghost use Rattle.std.specs.Prelude.{◌≡◌, ◌≢◌, ℕ, List, [], ◌∷◌, Ok, IfOk, IfSome, IfNone, MatchOption};
ghost use Rattle.hex.specs.Hex.{decode_of};

use hex::{FromHex, FromHexError};
use std::alloc::{AllocError, Global};

/// The bytes that the word is in hexadecimal digits of either case, two for each byte.
pub fn bytes(alloc: Global, word: &str) -> Result<Option<Vec<u8>>, AllocError>
    ensures { IfOk result (λ found. MatchOption found
        ((bytes : List ℕ) → decode_of word.now ≢ Ok bytes)
        (λ bytes. decode_of word.now ≡ Ok bytes.items)) }
{
    match hex::decode(alloc, word) {
        Ok(bytes) => Ok(Some(bytes)),
        Err(FromHexError::OutOfMemory) => Err(AllocError),
        Err(_) => Ok(None),
    }
}

/// The byte that the word is in two hexadecimal digits of either case.
pub fn byte(word: &str) -> Option<u8>
    ensures some { IfSome result (λ byte. decode_of word.now ≡ Ok (byte ∷ [])) }
    ensures none { IfNone result ((byte : ℕ) → decode_of word.now ≢ Ok (byte ∷ [])) }
{
    let Ok(bytes) = <[u8; 1] as FromHex>::from_hex(word) else {
        return None;
    };
    let [byte] = bytes;
    Some(byte)
}
