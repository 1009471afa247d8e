// Checked files.

ghost use Rattle.std.specs.Prelude.{◌≡◌, map};
ghost use Rattle.ls_checked.specs.Plain.{plain_file};
ghost use Rattle.ls_types_elaboration.specs.Tables.{texts_of, class_sign_of};
ghost use Rattle.ls_types_checked.specs.Kept.{IsElaborated};

use ls_checked::tree::File;
use ls_types_elaboration::elaborated_file::ElaboratedFile;
use ls_types_elaboration::known::ClassSign;
pub use ls_types_elaboration::rule::CheckFault;

/// The checked file of a class text that keeps every rule.
#[derive(Drop)]
pub struct Checked {
    names: Vec<String>,
    signs: Vec<ClassSign>,
    file: File,
    /// The file is the elaboration of a tree.
    pub ghost kept: { ∥ IsElaborated (record {
      names = texts_of names.items;
      signs = map class_sign_of signs.items;
      file = plain_file file;
    }) ∥₁ },
}

impl Checked {
    ghost use Rattle.ls_types_checked.specs.CheckedFile.{file_of, names_of, signs_of};
    ghost use Rattle.ls_types_elaboration.specs.ElaboratedFiles.{elaborated_file as outcome_seen};

    /// A checked file of what the elaboration of a tree answers.
    pub fn new(outcome: ElaboratedFile) -> Checked
        requires { IsElaborated (outcome_seen outcome) }
        ensures names { names_of result ≡ texts_of outcome.names.items }
        ensures signs { signs_of result ≡ map class_sign_of outcome.signs.items }
        ensures file { file_of result ≡ outcome.file }
    {
        let ElaboratedFile { names, signs, file } = outcome;
        Checked { names, signs, file }
    }

    /// The checked file itself.
    pub fn file(&self) -> &File
        ensures { result.now ≡ file_of self.now }
    {
        &self.file
    }

    /// The names of the classes, in text order. The number of a class is the index of its name.
    pub fn class_names(&self) -> &[String]
        ensures { texts_of result.now ≡ names_of self.now }
    {
        &self.names
    }

    /// What the classes declare, in text order.
    pub fn class_signs(&self) -> &[ClassSign]
        ensures { map class_sign_of result.now ≡ signs_of self.now }
    {
        &self.signs
    }
}
