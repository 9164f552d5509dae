//! Lines of texts of owners.

ghost use Rattle.std.specs.Prelude.{◌≡◌, find, not};
ghost use Rattle.std.specs.Option.{option_map};
ghost use Rattle.std.specs.Str.Lines.{lines};
ghost use Rattle.scoop_owner.specs.Owner.{has_line, has_key, key_of};

/// The first line of a text that another text doesn't have.
pub fn first_missing<'a>(wanted: &'a str, found: &str) -> Option<&'a str>
    ensures { option_map (λ line. line.now) result ≡ find (λ line. not (has_line found.now line)) (lines wanted.now) }
{
    wanted.lines().find(|line| !has_line(found, *line))
}

// Whether a text has this line.
fn has_line(found: &str, line: &str) -> bool
    ensures { result ≡ has_line found.now line.now }
{
    found.lines().any(|other| other == line)
}

/// The first line of a text that has the key of this line, the part before its first `=`.
pub fn line_like<'a>(found: &'a str, line: &str) -> Option<&'a str>
    ensures { option_map (λ other. other.now) result ≡ find (λ other. has_key other (key_of line.now)) (lines found.now) }
{
    let key = key_of(line);
    found.lines().find(|other| has_key(*other, key))
}

// The part of a line before its first `=`; all of it if there is none.
fn key_of(line: &str) -> &str
    ensures { result.now ≡ key_of line.now }
{
    match line.split_once('=') {
        Some((key, _)) => key,
        None => line,
    }
}

fn has_key(line: &str, key: &str) -> bool
    ensures { result ≡ has_key line.now key.now }
{
    line.starts_with(key)
}
