// What a page is made of.

use ls_page::{Texts, Window};

/// The texts of a run, the steps that are shown, and an order of its calls if there is one.
#[derive(Clone, Copy)]
pub struct Wanted<'t> {
    pub texts: Texts<'t>,
    pub window: Window,
    pub order: Option<&'t str>,
}
