//! The names and addresses that texts spell.
ghost use Rattle.std.specs.Prelude.{◌≡◌};
ghost use Rattle.std.specs.List.{list_all};
ghost use Rattle.toml.specs.View.{view};
ghost use Rattle.hsr_toml.specs.Fallible.{Gives};
ghost use Rattle.hsr_toml.specs.Names.{is_name, is_name_octet, is_port_letter, mac_of};
ghost use Rattle.hsr_toml.specs.Tables.{word};

use crate::key::TableKey;
use crate::table::text;
use hsr_frame::Mac;
use toml::Value;

/// The most octets of a name.
const NAME_LIMIT: usize = 32;

/// Whether a name may have that octet.
fn is_name_octet(b: u8) -> bool
    ensures { result ≡ is_name_octet b }
{
    b.is_ascii_lowercase() || b.is_ascii_digit() || b == b'-'
}

/// Whether a name may have these octets.
fn are_name_octets(text: &[u8]) -> bool
    ensures { result ≡ list_all is_name_octet text.now }
{
    text.iter().all(|b| is_name_octet(*b))
}

/// Whether a text is a name: 1 to 32 small letters, digits and hyphens.
pub fn is_name(text: &[u8]) -> bool
    ensures { result ≡ is_name text.now }
{
    are_name_octets(text) && !text.is_empty() && text.len() <= NAME_LIMIT
}

/// Whether a port of some role has the letter.
pub fn is_port_letter(letter: u8) -> bool
    ensures { result ≡ is_port_letter letter }
{
    matches!(letter, b'A'..=b'D' | b'I' | b'P')
}

/// The address that a value spells.
/// Six pairs of hexadecimal digits of either case, parted by hyphens. `wrong_kind` where the value is no text,
/// `bad_value` where the text spells no address.
#[tactic(auto, using(crate::proofs::Fallible::fails, crate::proofs::Fallible::stays))]
pub fn mac<K: TableKey>(key: K, value: &Value) -> Result<Mac, K::Fault>
    ensures { Gives K.faults.is_memory (λ m. m) result (word K.faults mac_of key (view value.now)) }
{
    match Mac::from_text(text(key, value)?) {
        Ok(mac) => Ok(mac),
        Err(_) => Err(key.bad_value()),
    }
}
