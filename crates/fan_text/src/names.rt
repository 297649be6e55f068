// Names of files, and paths of names.
ghost use Rattle.std.specs.Prelude.{◌≡◌, ◌↔◌, IsTrue};
ghost use Rattle.std.specs.List.{list_all};
ghost use Rattle.fan_text.specs.Reading.{are_names, is_name, is_name_byte, is_path, is_path_of};
ghost use Rattle.fan_text.specs.Spelling.{IsName, IsPath};

// The most bytes of a name, and of a path.
const MOST_NAME_BYTES: usize = 255;

const MOST_PATH_BYTES: usize = 4095;

fn is_name_byte(byte: u8) -> bool
    ensures { result ≡ is_name_byte byte }
{
    byte.is_ascii_graphic() && byte != b'/'
}

fn are_name_bytes(bytes: &[u8]) -> bool
    ensures { result ≡ list_all is_name_byte bytes.now }
{
    bytes.iter().all(|byte| is_name_byte(*byte))
}

/// Whether a word is a name: 1 to 255 visible bytes of ASCII without a slash, and neither `.` nor `..`.
#[tactic(auto, unfolding(crate::specs::Reading::is_name))]
pub fn read_name(word: &[u8]) -> bool
    ensures name { IsTrue result ↔ IsName word.now }
    ensures value { result ≡ is_name word.now }
{
    if word.is_empty() {
        return false;
    }
    if word.len() > MOST_NAME_BYTES {
        return false;
    }
    if word == b".".as_slice() {
        return false;
    }
    if word == b"..".as_slice() {
        return false;
    }
    are_name_bytes(word)
}

// Whether bytes are names, with a slash between each two.
#[tactic(auto, unfolding(crate::specs::Reading::are_names))]
fn are_names(bytes: &[u8]) -> bool
    ensures { result ≡ are_names bytes.now }
{
    bytes.split(|byte| *byte == b'/').all(read_name)
}

// Whether a word is a slash alone, or names each behind a slash.
fn is_path_of(word: &[u8]) -> bool
    ensures { result ≡ is_path_of word.now }
{
    match word {
        [b'/'] => true,
        [b'/', names @ ..] => are_names(names),
        _ => false,
    }
}

/// Whether a word is a path: a slash alone, or names each behind a slash, of 4,095 bytes at most.
#[tactic(auto, unfolding(crate::specs::Reading::is_path))]
pub fn read_path(word: &[u8]) -> bool
    ensures path { IsTrue result ↔ IsPath word.now }
    ensures value { result ≡ is_path word.now }
{
    word.len() <= MOST_PATH_BYTES && is_path_of(word)
}
