// Making and reading names, and the number that stands for a preference.
ghost use Rattle.tasks.specs.Task.{name_of, name_fits, preference_of, preference_number};
ghost use Rattle.std.specs.Prelude.{◌≡◌, [], ◌∷◌, true, false, Some, None, MatchOption, MatchResult};

use super::{Name, Preference, UnknownPreference};
use fixed::fixed_vec::FixedVec;

// The longest name, in bytes.
pub const MAX_NAME: usize = 16;

// The preference that a number stands for in a list file, if it stands for one.
impl TryFrom<u8> for Preference {
    type Error = UnknownPreference;

    ghost try_from_gives = { λ n r. MatchResult r (λ p. preference_of n ≡ Some p) (λ e. (preference_of n ≡ None) × (e.0 ≡ n)) };

    fn try_from(number: u8) -> Result<Preference, UnknownPreference> {
        match number {
            0 => Ok(Preference::Asap),
            1 => Ok(Preference::Alap),
            _ => Err(UnknownPreference(number)),
        }
    }
}

// The number that stands for a preference in a list file.
impl From<Preference> for u8 {
    ghost from_gives = { λ p n. n ≡ preference_number p };

    fn from(preference: Preference) -> u8 {
        match preference {
            Preference::Asap => 0,
            Preference::Alap => 1,
        }
    }
}

impl Name {
    // The name of one zero byte, for places that no task has taken.
    pub(crate) fn filler() -> Name
        ensures { name_of result ≡ 0 ∷ [] }
    {
        Name {
            bytes: FixedVec::first_of([0u8; MAX_NAME], 1),
        }
    }

    // The name with these bytes, if there are 1 to 16 of them.
    pub fn new(text: &[u8]) -> Option<Name>
        ensures { MatchOption result (name_fits text.now ≡ false) (λ n. (name_fits text.now ≡ true) × (name_of n ≡ text.now)) }
    {
        if text.is_empty() {
            return None;
        }
        let mut bytes = FixedVec::new(0);
        bytes.extend_from_slice(text).ok()?;
        Some(Name { bytes })
    }

    // The bytes of the name.
    pub fn bytes(&self) -> &[u8]
        ensures { result.now ≡ name_of self.now }
    {
        self.bytes.as_slice()
    }
}
