// What is said of a sign that can't come where it is. It depends on the byte after it, and on the last byte before it
// that isn't white space.

ghost use Rattle.std.specs.Prelude.{◌≡◌};
ghost use Rattle.ls_explanations.specs.Signs.{bracket_lesson, operator_lesson, other_sign_lesson};

/// Other signs.
fn other_sign_lesson(sign: u8, next: u8, last: u8) -> &'static str
    ensures { result.now ≡ other_sign_lesson sign next last }
{
    if sign == b'?' {
        "`? :` isn't supported: use `if (..) .. else ..`\n"
    } else if sign == b':' {
        "for-each loops aren't supported: use `for (..; ..; ..)`, or `while` and a field `next`\n"
    } else if sign == b'=' {
        "an assignment can't be a part of an expression: make it a statement before this one\n"
    } else if sign == b';' && last == b'}' {
        "unexpected `;` after a class: remove it\n"
    } else if sign == b'.' && next == b'.' {
        "a variable number of arguments isn't supported: declare each parameter\n"
    } else if sign == 0 {
        "unexpected end of the text: a `}` may be missing\n"
    } else {
        ""
    }
}

/// Signs of types and brackets.
fn bracket_lesson(sign: u8, next: u8, last: u8) -> &'static str
    ensures { result.now ≡ bracket_lesson sign next last }
{
    if sign == b'<' {
        "only AtomicMarkableReference takes a type in `< >`: remove it, and use `int` for `T`\n"
    } else if sign == b'>' && last == b'<' {
        "expected a type in `< >`, as in `new AtomicMarkableReference<Node>(..)`\n"
    } else if sign == b'[' {
        "only arrays `boolean[]` are supported: use linked objects, or a field for each element (`int e0; int e1;`)\n"
    } else if sign == b'{' && last == b'=' {
        "a list of elements isn't supported: use `new boolean[n]`, and assign each element\n"
    } else if sign == b'{' && last == b':' {
        "only a loop can have a label: remove this one\n"
    } else if sign == b'{' && (last == b';' || last == b'{' || last == b'}') {
        "initializer blocks aren't supported: use a constructor\n"
    } else if sign == b')' && last == b'(' {
        "lambdas aren't supported: threads stand in the thread program, as `thread A { c.m(); }`\n"
    } else if sign == b'(' {
        "no call is allowed here: remove `super(..)`, `this(..)` and the arguments of an annotation\n"
    } else {
        other_sign_lesson(sign, next, last)
    }
}

/// Signs of operators.
pub(crate) fn operator_lesson(sign: u8, next: u8, last: u8) -> &'static str
    ensures { result.now ≡ operator_lesson sign next last }
{
    if (sign == b'+' || sign == b'-') && next == sign {
        "`++` and `--` can't be a part of an expression: make it a statement before or after this one\n"
    } else if sign == b'-' && next == b'>' {
        "lambdas aren't supported: threads stand in the thread program, as `thread A { c.m(); }`\n"
    } else if (sign == b'-' || sign == b'*' || sign == b'/' || sign == b'%') && next == b'=' {
        "only `=` and `+=` are supported: write `n = n - e` for `n -= e`, and so for the others\n"
    } else if sign == b'&' || sign == b'|' || sign == b'^' || sign == b'~' {
        "bitwise operators aren't supported: of booleans use `&&`, `||`, and `!=` for `^`\n"
    } else if (sign == b'<' || sign == b'>') && next == sign {
        "shifts aren't supported: use `*` or `/` and a number\n"
    } else {
        bracket_lesson(sign, next, last)
    }
}
