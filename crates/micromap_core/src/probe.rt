//! Finding a key by a value of another type.
ghost use Rattle.std.specs.Prelude.{◌≡◌, Bool, true};
ghost use Rattle.std.specs.String.{string_bytes};
ghost use Rattle.std.proofs.lemmas.Cmp.{nat_list_eq_equiv};
ghost use Rattle.micromap_core.specs.Probe.{alike, equal, is_str, is_text};

/// A value by which a stored key can be found.
///
/// An implementation says which keys it matches, and proves two laws: equal keys match alike, and two keys that match
/// are equal. So at most one stored key matches.
///
/// ```
/// assert!(rt; Text("Ada").matches(&"Ada"));
/// assert!(rt; !Text("Ada").matches(&"ada"));
/// ```
pub trait Probe<K: Eq> {
    ghost matches: { Self → K → Bool };

    /// Returns `true` if the probe matches `key`.
    fn matches(&self, key: &K) -> bool
        ensures { result ≡ matches self.now key.now };

    ghost equal_keys_match_alike: { (p : Self) (x y : K) → K.eq x y ≡ true → matches p x ≡ matches p y };

    ghost matching_keys_are_equal: { (p : Self) (x y : K) → matches p x ≡ true → matches p y ≡ true → K.eq x y ≡ true };
}

/// A key is a probe that matches the keys equal to it.
impl<K: Eq> Probe<K> for K {
    ghost matches = { K.eq };

    ghost equal_keys_match_alike = { alike K.Eq.laws };

    ghost matching_keys_are_equal = { equal K.Eq.laws };

    #[inline]
    fn matches(&self, key: &K) -> bool {
        *self == *key
    }
}

/// A probe for keys that are texts, `String` or `&str`: it matches the key with the same text.
/// It finds a `TextBuf` in the same way.
///
/// ```
/// let ages = Map::from([("Ada", 36), ("Alan", 41)]);
/// let name = TextBuf::new(alloc, "Alan")?;
/// assert_eq!(rt; ages.get_by(&Text(name.as_str())), Some(&41));
/// ```
#[derive(Debug, Clone, Copy)]
pub struct Text<'a>(pub &'a str);

impl<'a> Probe<String> for Text<'a> {
    ghost matches = { λ p. is_text p.0.now };

    ghost equal_keys_match_alike = { λ p x y. alike nat_list_eq_equiv p.0.now (string_bytes x) (string_bytes y) };

    ghost matching_keys_are_equal = { λ p x y. equal nat_list_eq_equiv p.0.now (string_bytes x) (string_bytes y) };

    fn matches(&self, key: &String) -> bool {
        *self.0 == *key.as_str()
    }
}

impl<'a> Probe<&'a str> for Text<'_> {
    ghost matches = { λ p. is_str p.0.now };

    ghost equal_keys_match_alike = { λ p x y. alike nat_list_eq_equiv p.0.now x.now y.now };

    ghost matching_keys_are_equal = { λ p x y. equal nat_list_eq_equiv p.0.now x.now y.now };

    fn matches(&self, key: &&'a str) -> bool {
        *self.0 == **key
    }
}
