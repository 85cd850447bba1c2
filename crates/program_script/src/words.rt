// Tables of words, each with what it stands for.
ghost use Rattle.std.specs.Prelude.{◌≡◌, find, option_map};
ghost use Rattle.text_words.specs.Spelling.{same_word};

use text_words::spelling;

// What a word stands for in a table: case does not count.
pub fn meaning_of<T: Copy>(table: &[(&[u8], T)], word: &[u8]) -> Option<T>
    ensures { result ≡ option_map (λ e. e.1) (find (λ e. same_word e.0.now word.now) table.now) }
{
    let (_, meaning) = table
        .iter()
        .find(|(name, _)| spelling::same_word(name, word))?;
    Some(*meaning)
}
