// The names of files among the words of a command line.

ghost use Rattle.std.specs.Prelude.{◌≡◌, ◌≤◌, length, map, option_map, string_bytes};
ghost use Rattle.std.specs.List.{position_or_len};
ghost use Rattle.ls_files.specs.Names.{asking, is_names_word, file_names_in};

/// The word after which the names of files come.
const NAMES: &str = "--names";

/// How many words there are before the names of files.
fn count_before(words: &[String]) -> usize
    ensures within { result ≤ length words.now }
    ensures value { result ≡ position_or_len is_names_word words.now }
{
    let mut count = 0;
    while count < words.len() && words[count].as_str() != NAMES {
        count += 1;
    }
    count
}

/// The words that ask for something: those before the word `--names`.
pub fn asking<'a>(words: &'a [String]) -> &'a [String]
    ensures { map string_bytes result.now ≡ asking (map string_bytes words.entry.now) }
{
    let count = count_before(words);
    &words[..count]
}

/// The names of the files that an input holds: the words after the word `--names`, if that is there.
pub fn file_names_in<'a>(words: &'a [String]) -> Option<&'a [String]>
    ensures { option_map (λ names. map string_bytes names.now) result ≡
        file_names_in (map string_bytes words.entry.now) }
{
    let count = count_before(words);
    if count < words.len() {
        Some(&words[count + 1..])
    } else {
        None
    }
}
