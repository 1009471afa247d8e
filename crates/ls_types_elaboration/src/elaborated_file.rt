// What elaboration answers for a file.

use crate::known::ClassSign;
use ls_checked::tree::File;

/// The names of the classes, what they declare, and the checked file.
#[derive(Drop)]
pub struct ElaboratedFile {
    pub names: Vec<String>,
    pub signs: Vec<ClassSign>,
    pub file: File,
}
