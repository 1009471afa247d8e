// What is said of a reserved word that can't come where it is.

ghost use Rattle.std.specs.Prelude.{◌≡◌};
ghost use Rattle.ls_explanations.specs.Words.{member_lesson, operand_lesson, statement_lesson};

/// Words of expressions and types.
fn operand_lesson(name: &[u8]) -> &'static str
    ensures { result.now ≡ operand_lesson name.now }
{
    if name == b"super".as_slice() {
        "a class can't extend another: remove `super`\n"
    } else if name == b"instanceof".as_slice() {
        "`instanceof` isn't supported: remove it, or keep what the object is in a field\n"
    } else if name == b"long".as_slice()
        || name == b"short".as_slice()
        || name == b"byte".as_slice()
        || name == b"char".as_slice()
        || name == b"float".as_slice()
        || name == b"double".as_slice()
    {
        "this type isn't supported: use `int`\n"
    } else {
        ""
    }
}

/// Words that begin statements.
fn statement_lesson(name: &[u8]) -> &'static str
    ensures { result.now ≡ statement_lesson name.now }
{
    if name == b"switch".as_slice() || name == b"case".as_slice() || name == b"default".as_slice() {
        "`switch` isn't supported: use `if (..) .. else if (..) .. else ..`\n"
    } else if name == b"do".as_slice() {
        "`do` isn't supported: use `while (true) { .. if (!(c)) break; }`\n"
    } else if name == b"catch".as_slice() {
        "`catch` isn't supported: remove it, and test before the call. `finally` is supported\n"
    } else if name == b"throw".as_slice() {
        "`throw` isn't supported: return a value that says so. `return 1 / 0;` ends a call by an exception\n"
    } else if name == b"assert".as_slice() {
        "`assert` isn't supported: remove it\n"
    } else if name == b"setup".as_slice() || name == b"thread".as_slice() {
        "expected the class text here: it comes before the thread program\n"
    } else {
        operand_lesson(name)
    }
}

/// Words among members and classes.
pub(crate) fn member_lesson(name: &[u8]) -> &'static str
    ensures { result.now ≡ member_lesson name.now }
{
    if name == b"static".as_slice() {
        "`static` isn't supported: make it a member of an object that the setup creates, or a class beside this one\n"
    } else if name == b"interface".as_slice()
        || name == b"abstract".as_slice()
        || name == b"extends".as_slice()
        || name == b"implements".as_slice()
    {
        "a class can't have supertypes: remove this, and put all members that are used into the one class\n"
    } else if name == b"enum".as_slice() {
        "`enum` isn't supported: use an `int` for each value\n"
    } else if name == b"record".as_slice() {
        "`record` isn't supported: use a class with fields and a constructor\n"
    } else if name == b"throws".as_slice() {
        "`throws` isn't supported: remove it and the names after it\n"
    } else if name == b"native".as_slice()
        || name == b"transient".as_slice()
        || name == b"strictfp".as_slice()
    {
        "this modifier isn't supported: remove it\n"
    } else {
        statement_lesson(name)
    }
}
