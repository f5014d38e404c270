//! Truth values in words of 64, the lowest bit first.
ghost use Rattle.std.specs.Prelude.{◌≡◌, ◌-◌, ◌*◌, ◌≤◌, ◌<◌, ◌++◌, ◌^◌, length, take, replicate, false, not, map, count_by, count_ones, slice_get, Some};
ghost use Rattle.std.specs.Int.{div_ceil};
ghost use Rattle.es_bits.specs.Pairs.{both, either};
ghost use Rattle.es_bits.specs.Places.{true_places};
ghost use Rattle.es_bits.specs.Words.{word_bits, bits_of};

/// Place by place, whether both are true.
pub fn and_words(words: &mut [u64], others: &[u64])
    requires { length words.old ≡ length others.now }
    ensures { bits_of words.new ≡ both (bits_of words.old) (bits_of others.now) }
{
    for (at, word) in words.iter_mut().enumerate() {
        *word &= others[at];
    }
}

/// Place by place, whether one of them is true.
pub fn or_words(words: &mut [u64], others: &[u64])
    requires { length words.old ≡ length others.now }
    ensures { bits_of words.new ≡ either (bits_of words.old) (bits_of others.now) }
{
    for (at, word) in words.iter_mut().enumerate() {
        *word |= others[at];
    }
}

/// Place by place, the other value.
pub fn invert_words(words: &mut [u64])
    ensures { bits_of words.new ≡ map not (bits_of words.old) }
{
    for word in words.iter_mut() {
        *word = !*word;
    }
}

/// All values from the place `len` on become false. It lies in the last word, or right after it.
pub fn clear_past(words: &mut [u64], len: usize)
    requires { length words.old ≡ div_ceil len 64 }
    ensures { bits_of words.new ≡ take len (bits_of words.old) ++ replicate (64 * length words.old - len) false }
{
    let used = len % 64;
    if used > 0 {
        words[len / 64] &= (1 << used) - 1;
    }
}

/// How many are true.
pub fn count_words(words: &[u64]) -> usize
    requires { count_by (λ truth. truth) (bits_of words.now) < 2 ^ 64 }
    ensures { result ≡ count_by (λ truth. truth) (bits_of words.now) }
{
    words.iter().map(|word| word.count_ones() as usize).sum()
}

/// The place of the `k`-th true value, both counted from 0.
pub fn place_in_words(words: &[u64], k: usize) -> Option<usize>
    requires { length words.now ≤ 2 ^ 58 }
    ensures { result ≡ slice_get (true_places (bits_of words.now)) k }
{
    let mut left = k;
    for (at, word) in words.iter().enumerate() {
        let count = word.count_ones() as usize;
        if left < count {
            return Some(at * 64 + place_in_word(*word, left));
        }
        left -= count;
    }
    None
}

/// The place of the `k`-th true value of a word, both counted from 0.
fn place_in_word(word: u64, k: usize) -> usize
    requires { k < count_ones word }
    ensures within { result < 64 }
    ensures place { slice_get (true_places (word_bits word)) k ≡ Some result }
{
    let mut rest = word;
    for _ in 0..k {
        rest &= rest - 1;
    }
    rest.trailing_zeros() as usize
}
