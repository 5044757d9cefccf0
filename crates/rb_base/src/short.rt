// A text of at most 14 bytes that takes no memory of its own. Most names, numerals and words of a program are as short
// as that. The bytes stand in the value itself, at the first of its 14 places, and a count says how many of the places
// are in use.
ghost use Rattle.std.specs.Prelude.{◌≡◌, ◌≤◌, ◌+◌, ◌++◌, [], length};

use std::marker::Model;

/// The number of bytes that a short text has at most.
pub const ROOM: usize = 14;

/// A text of at most 14 bytes. Contracts see the list of the bytes.
#[derive(Drop)]
pub struct Short {
    count: u8,
    places: [u8; ROOM],
}

impl Model for Short {
    ghost use Rattle.std.specs.Prelude.{◌≡◌, ◌≤◌, ℕ, List, length, take};

    ghost Value = { List ℕ };

    ghost view = { λ a. take a.count a.places };

    ghost invariant = { λ a. (a.count ≤ 14) × (length a.places ≡ 14) };
}

impl Short {
    /// The empty text.
    pub fn empty() -> Short
        ensures { result ≡ [] }
    {
        Short {
            count: 0,
            places: [0; ROOM],
        }
    }

    /// The text of these bytes.
    pub fn of(bytes: &[u8]) -> Short
        requires { length bytes.now ≤ 14 }
        ensures { result ≡ bytes.now }
    {
        let mut places = [0; ROOM];
        places[..bytes.len()].copy_from_slice(bytes);
        Short {
            count: bytes.len() as u8,
            places,
        }
    }

    /// The text of these bytes one behind the other.
    pub fn joined(first: &[u8], second: &[u8]) -> Short
        requires { length first.now + length second.now ≤ 14 }
        ensures { result ≡ first.now ++ second.now }
    {
        let count = first.len() + second.len();
        let mut places = [0; ROOM];
        places[..first.len()].copy_from_slice(first);
        places[first.len()..count].copy_from_slice(second);
        Short {
            count: count as u8,
            places,
        }
    }

    /// The bytes.
    #[inline]
    pub fn as_slice(&self) -> &[u8]
        ensures { result.now ≡ self.now }
    {
        &self.places[..self.count as usize]
    }
}
