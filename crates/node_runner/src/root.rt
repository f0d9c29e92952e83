//! The root that a run's words name, made ready before its first line.

ghost use Rattle.std.specs.Prelude.{◌≡◌, false, is_some, map};
ghost use Rattle.std.specs.Result.{result_err};
ghost use Rattle.std.specs.String.{string_bytes};
ghost use Rattle.node_runner.specs.Beginning.{are_right_words, Begins};

use crate::ending::Ending;
use disk_base::Farm;

/// The root that the words of the program name: they are one word, which doesn't begin with `-`.
fn root_of(words: &[String]) -> Option<&str>
    ensures { is_some result ≡ are_right_words (map string_bytes words.now) }
{
    if words.len() != 1 {
        return None;
    }
    let root = words[0].as_bytes();
    if root.is_empty() || root[0] != b'-' {
        Some(words[0].as_str())
    } else {
        None
    }
}

/// Makes the root that these words name ready. Where they are wrong, the farm isn't asked.
///
/// # Errors
/// How the run ends before its first line. A root that an earlier run left counts as content, since none can be opened yet.
pub fn begin<F: Farm>(words: &[String], farm: &mut F) -> Result<(), Ending>
    ensures begins { Begins F.Disk.seen (are_right_words (map string_bytes words.now)) (F.seen farm.old) (F.seen farm.new) (result_err result) }
    ensures unasked { are_right_words (map string_bytes words.now) ≡ false → farm.new ≡ farm.old }
{
    let Some(root) = root_of(words) else {
        return Err(Ending::Usage);
    };
    match farm.root(root) {
        Ok(false) => Ok(()),
        Ok(true) => Err(Ending::RootNotEmpty),
        Err(fault) => Err(Ending::from(fault)),
    }
}
