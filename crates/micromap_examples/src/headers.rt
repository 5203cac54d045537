//! The headers of a request: names with their values, in the order in which the names came.
//!
//! Names that differ by the case of their ASCII letters are one name. The values of a name that comes again are joined,
//! but `host` and `content-length` have one value each. A contract sees a name, in small letters, and a value as their
//! bytes.
ghost use Rattle.std.specs.Prelude.{◌≡◌, ◌⊎◌, ◌<◌, ◌++◌, codes, length, map, IfErr, IfOk, OnErr, OnOk, Ok, Err, None, Some};
ghost use Rattle.std.specs.Option.{option_map};
ghost use Rattle.std.specs.Str.{str_to_ascii_lowercase, bytes_eq};
ghost use Rattle.std.specs.Cmp.{partial_equiv_from_equiv};
ghost use Rattle.std.specs.Cmp.Lexicographic.{nat_list_eq_equiv};
ghost use Rattle.httparse.specs.Borrowed.{header_parts};
ghost use Rattle.micromap.specs.Build.{merge_pair};
ghost use Rattle.micromap.specs.Pairs.{at};
ghost use Rattle.micromap.specs.Probe.{alike, equal};
ghost use Rattle.micromap_examples.specs.Headers.{field_of, headers_of, joined, message, other_value, refusal};
ghost use Rattle.micromap_examples.specs.declared.headers.HeaderFault.TheVariants.{Memory};

use httparse::Header;
use micromap::{Map, Probe};
use std::alloc::{AllocError, Global};
use std::error::Error;
use std::fmt;
use std::marker::Model;

/// The headers of one request, in the order in which their names came.
pub type Headers<const N: usize> = Map<Name, Value, N>;

/// The name of a header, in small letters.
#[derive(Drop)]
pub struct Name {
    text: String,
}

impl Model for Name {
    ghost use Rattle.std.specs.Prelude.{List, ℕ};
    ghost use Rattle.std.specs.String.{string_bytes};

    ghost Value = { List ℕ };

    ghost view = { λ name. string_bytes name.text };
}

impl Name {
    /// Creates the name that a text spells, in whatever case.
    pub fn new(alloc: Global, text: &str) -> Result<Name, AllocError>
        ensures { IfOk result (λ name. name ≡ str_to_ascii_lowercase text.now) }
    {
        let text = text.to_ascii_lowercase(alloc)?;
        Ok(Name { text })
    }

    /// Returns the name's text.
    pub fn as_str(&self) -> &str
        ensures { result.now ≡ self.now }
    {
        self.text.as_str()
    }
}

impl PartialEq for Name {
    ghost eq = { bytes_eq };

    ghost laws = { partial_equiv_from_equiv nat_list_eq_equiv };

    fn eq(&self, other: &Name) -> bool {
        self.text == other.text
    }
}

impl Eq for Name {
    ghost laws = { nat_list_eq_equiv };
}

/// Matches the name that has this text. It asks for no memory, as `Name::new` does.
#[derive(Clone, Copy)]
pub struct Spelled<'a>(pub &'a str);

impl<'a> Probe<Name> for Spelled<'a> {
    ghost matches = { λ p name. bytes_eq p.0.now name };

    ghost equal_keys_match_alike = { λ p x y. alike nat_list_eq_equiv p.0.now x y };

    ghost matching_keys_are_equal = { λ p x y. equal nat_list_eq_equiv p.0.now x y };

    fn matches(&self, name: &Name) -> bool {
        self.0 == name.as_str()
    }
}

/// The value of a header, which need not be text.
#[derive(Drop)]
pub struct Value {
    bytes: Vec<u8>,
}

impl Model for Value {
    ghost use Rattle.std.specs.Prelude.{List, ℕ};

    ghost Value = { List ℕ };

    ghost view = { λ value. value.bytes.items };
}

impl Value {
    /// Creates the value with these bytes.
    pub fn new(alloc: Global, bytes: &[u8]) -> Result<Value, AllocError>
        ensures { IfOk result (λ value. value ≡ bytes.now) }
    {
        let bytes = Vec::from_slice(alloc, bytes)?;
        Ok(Value { bytes })
    }

    /// Returns the value's bytes.
    pub fn as_bytes(&self) -> &[u8]
        ensures { result.now ≡ self.now }
    {
        &self.bytes
    }

    // Returns the value with another behind it, after a comma.
    fn with(&self, alloc: Global, other: &[u8]) -> Result<Value, AllocError>
        ensures { IfOk result (λ value. value ≡ self.now ++ codes ", " ++ other.now) }
    {
        let mut bytes = Vec::from_slice(alloc, &self.bytes)?;
        bytes.extend_from_slice(b", ")?;
        bytes.extend_from_slice(other)?;
        Ok(Value { bytes })
    }
}

/// Why fields are no headers.
#[derive(Debug, Clone, Copy, PartialEq, Eq)]
pub enum HeaderFault {
    /// There are more than this many names.
    TooMany(usize),
    /// Two values of `host` differ.
    TwoHosts,
    /// Two values of `content-length` differ.
    TwoLengths,
    /// There is no `host`.
    NoHost,
    /// A request for memory was refused.
    Memory,
}

impl fmt::Display for HeaderFault {
    ghost output = { λ fault. Some (message fault) };

    fn fmt<W: fmt::Write>(&self, f: &mut fmt::Formatter<W>) -> fmt::Result {
        match self {
            HeaderFault::TooMany(most) => write!(f, "there are more than {most} names"),
            HeaderFault::TwoHosts => f.write_str("two values of host differ"),
            HeaderFault::TwoLengths => f.write_str("two values of content-length differ"),
            HeaderFault::NoHost => f.write_str("there is no host"),
            HeaderFault::Memory => f.write_str("a request for memory was refused"),
        }
    }
}

impl Error for HeaderFault {}

impl From<AllocError> for HeaderFault {
    ghost from_gives = { λ _ fault. fault ≡ Memory };

    fn from(_refused: AllocError) -> Self {
        HeaderFault::Memory
    }
}

/// Returns the headers that fields make, added one after the other, or the first fault.
///
/// Allocates memory for each name and value.
#[tactic(auto, using(micromap::proofs::Rules::caller, std::proofs::lemmas::Grind::common_steps))]
pub fn collect<const N: usize>(
    alloc: Global,
    fields: &[Header<'_>],
) -> Result<Headers<N>, HeaderFault>
    ensures headers { IfOk result (λ headers. headers_of N (map header_parts fields.now) ≡ Ok headers) }
    ensures fault { IfErr result (λ fault. (fault ≡ Memory) ⊎ (headers_of N (map header_parts fields.now) ≡ Err fault)) }
    ensures memory { IfErr result (λ fault. fault ≡ Memory → 0 < length fields.now) }
{
    let mut headers = Map::new();
    for field in fields {
        add(alloc, &mut headers, field.name, field.value)?;
    }
    if headers.contains_key_by(&Spelled("host")) {
        Ok(headers)
    } else {
        Err(HeaderFault::NoHost)
    }
}

/// Adds a header. A new name goes last, and the value of a known name behind the one that is there, after a comma.
///
/// Returns an error, and adds nothing, if there is no room for the name, or another value of a name that has only one.
pub fn add<const N: usize>(
    alloc: Global,
    headers: &mut Headers<N>,
    name: &str,
    value: &[u8],
) -> Result<(), HeaderFault>
    ensures fits { OnOk result (refusal N headers.old (field_of (name.now, value.now)) ≡ None) }
    ensures headers { OnOk result (headers.new ≡ merge_pair bytes_eq joined headers.old (field_of (name.now, value.now))) }
    ensures fault { IfErr result (λ fault. (fault ≡ Memory) ⊎ (refusal N headers.old (field_of (name.now, value.now)) ≡ Some fault)) }
    ensures unchanged { OnErr result (headers.new ≡ headers.old) }
{
    let name = Name::new(alloc, name)?;
    if !headers.fits(&name) {
        return Err(HeaderFault::TooMany(N));
    }
    let value = match (headers.get(&name), two_values(name.as_str())) {
        (Some(stored), None) => stored.with(alloc, value)?,
        (Some(stored), Some(fault)) if stored.as_bytes() != value => return Err(fault),
        _ => Value::new(alloc, value)?,
    };
    headers.insert(name, value);
    Ok(())
}

// Returns the fault of a second value of a name, if it may have one value only.
fn two_values(name: &str) -> Option<HeaderFault>
    ensures { result ≡ other_value name.now }
{
    match name {
        "host" => Some(HeaderFault::TwoHosts),
        "content-length" => Some(HeaderFault::TwoLengths),
        _ => None,
    }
}

/// Returns the value of a name.
pub fn value_of<'a, const N: usize>(headers: &'a Headers<N>, name: &Name) -> Option<&'a [u8]>
    ensures { option_map (λ value. value.now) result ≡ at bytes_eq headers.now name.now }
{
    Some(headers.get(name)?.as_bytes())
}
