// What a page of choices is made of.

use ls_page::Texts;

/// The texts of an input, its reference if one is given, and the most states that are kept. Without a schedule its text
/// is empty.
#[derive(Clone, Copy)]
pub struct Wanted<'t> {
    pub texts: Texts<'t>,
    pub reference: Option<&'t str>,
    pub states: usize,
}
