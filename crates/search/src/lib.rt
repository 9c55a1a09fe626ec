// The one search: the first record that is kept under a key.
#![tactic(auto)]

ghost use Rattle.std.specs.Prelude.{◌≡◌, Bool};
ghost use Rattle.search.specs.First.{first_under, FirstOrNone};
ghost use Rattle.search.specs.Places.{some_under};

// A record that may be kept under a key of type `K`. A record type has one such impl for each kind of key.
pub trait Keyed<K> {
    // whether the record is under the key
    ghost under: { Self → K → Bool };

    fn is_under(&self, key: &K) -> bool
        ensures { result ≡ under self.now key.now };
}

// A place that may be empty is under a key where some record stands there that is; an empty one is under no key.
impl<K, R: Keyed<K>> Keyed<K> for Option<R> {
    ghost under = { some_under R.Keyed.under };

    fn is_under(&self, key: &K) -> bool {
        self.as_ref().is_some_and(|record| record.is_under(key))
    }
}

// The index of the first record under the key. The second clause says the same without recursion, for readers
// and for callers that only ask what an answer tells them.
pub fn find<K, R: Keyed<K>>(records: &[R], key: &K) -> Option<usize>
    ensures first { result ≡ first_under (λ x. R.Keyed.under x key.now) records.now }
    ensures meaning { FirstOrNone (λ x. R.Keyed.under x key.now) records.now result }
{
    records.iter().position(|record| record.is_under(key))
}
