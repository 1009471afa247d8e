// Cutting a text in two.

ghost use Rattle.std.specs.Prelude.{◌≡◌, ◌<◌, option_map};
ghost use Rattle.ls_report.specs.Cut.{cut};

/// The text before the first such character, and the text after it; none if there is no such character.
pub fn cut(text: &str, mark: char) -> Option<(&str, &str)>
    requires { mark < 128 }
    ensures { option_map (λ p. (p.0.now, p.1.now)) result ≡ cut mark text.now }
{
    text.split_once(mark)
}
