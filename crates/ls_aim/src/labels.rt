// Whether a label has a text.

ghost use Rattle.std.specs.Prelude.{◌≡◌};
ghost use Rattle.ls_aim.specs.Labels.{begins, has_text};

#[tactic(auto, using(std::proofs::lemmas::List::take_min))]
fn begins(text: &[u8], label: &[u8]) -> bool
    ensures { result ≡ begins text.now label.now }
{
    let len = text.len().min(label.len());
    label.split_at(len).0 == text
}

/// Whether the text stands somewhere in the label.
pub fn has_text(text: &[u8], label: &[u8]) -> bool
    ensures { result ≡ has_text text.now label.now }
{
    let mut rest = label;
    'places: while !rest.is_empty() {
        if begins(text, rest) {
            return true;
        }
        rest = rest.split_at(1).1;
    }
    begins(text, rest)
}
