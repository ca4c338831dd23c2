//! Vowels and consonants of a word.
ghost use Rattle.std.specs.Prelude.{◌≡◌, codes};
ghost use Rattle.ii_stemmer.specs.Letters.{ends_cvc, ends_double, ends_with_one_of, has_vowel, is_one_of, is_vowel, is_vowel_at, measure};

// Returns whether a letter is a vowel, given whether the letter before it is a consonant.
fn is_vowel(after_consonant: bool, letter: u8) -> bool
    ensures { result ≡ is_vowel after_consonant letter }
{
    match letter {
        b'a' | b'e' | b'i' | b'o' | b'u' => true,
        b'y' => after_consonant,
        _ => false,
    }
}

/// Returns how often a run of vowels is followed by a run of consonants.
pub(crate) fn measure(word: &[u8]) -> usize
    ensures { result ≡ measure word.now }
{
    let mut count: usize = 0;
    let mut after_vowel = false;
    let mut after_consonant = false;
    for letter in word {
        let vowel = is_vowel(after_consonant, *letter);
        count += usize::from(after_vowel & !vowel);
        after_vowel = vowel;
        after_consonant = !vowel;
    }
    count
}

/// Returns whether a word has a vowel.
pub(crate) fn has_vowel(word: &[u8]) -> bool
    ensures { result ≡ has_vowel word.now }
{
    let mut after_consonant = false;
    for letter in word {
        if is_vowel(after_consonant, *letter) {
            return true;
        }
        after_consonant = true;
    }
    false
}

// Returns whether the letter at a place is a vowel.
fn is_vowel_at(word: &[u8], place: usize) -> bool
    ensures { result ≡ is_vowel_at word.now place }
{
    let mut after_consonant = false;
    for (at, letter) in word.iter().enumerate() {
        let vowel = is_vowel(after_consonant, *letter);
        if at == place {
            return vowel;
        }
        after_consonant = !vowel;
    }
    false
}

// Returns whether a letter is one of some.
fn is_one_of(letters: &[u8], letter: u8) -> bool
    ensures { result ≡ is_one_of letters.now letter }
{
    for one in letters {
        if *one == letter {
            return true;
        }
    }
    false
}

/// Returns whether a word ends with one of some letters.
pub(crate) fn ends_with_one_of(letters: &[u8], word: &[u8]) -> bool
    ensures { result ≡ ends_with_one_of letters.now word.now }
{
    let Some(last) = word.last() else {
        return false;
    };
    is_one_of(letters, *last)
}

/// Returns whether a word ends with a double consonant.
pub(crate) fn ends_double(word: &[u8]) -> bool
    ensures { result ≡ ends_double word.now }
{
    let n = word.len();
    if n < 2 {
        return false;
    }
    if word[n - 2] != word[n - 1] {
        return false;
    }
    !is_vowel_at(word, n - 1)
}

/// Returns whether a word ends with consonant, vowel, consonant, of which the last is not w, x or y.
pub(crate) fn ends_cvc(word: &[u8]) -> bool
    ensures { result ≡ ends_cvc word.now }
{
    let n = word.len();
    if n < 3 {
        return false;
    }
    let first = is_vowel_at(word, n - 3);
    let second = is_vowel_at(word, n - 2);
    let third = is_vowel_at(word, n - 1);
    !first & second & !third & !ends_with_one_of(b"wxy", word)
}
