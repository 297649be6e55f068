// Words that may spell a number in some base.
ghost use Rattle.std.specs.Prelude.{◌≡◌, ◌≤◌, length, IsTrue};
ghost use Rattle.fan_text.specs.Reading.{is_numeral};

/// Whether a word has 1 to `most` bytes, and no leading zero.
#[tactic(auto, unfolding(crate::specs::Reading::is_numeral))]
pub(crate) fn is_numeral(word: &[u8], most: usize) -> bool
    ensures value { result ≡ is_numeral most word.now }
    ensures short { IsTrue result → length word.now ≤ most }
{
    if word.is_empty() {
        return false;
    }
    if word.len() > most {
        return false;
    }
    word[0] != b'0' || word.len() == 1
}
