// The text of an answer, written to a lent buffer as far as it goes.
ghost use Rattle.std.specs.Prelude.{◌+◌, ◌*◌, ◌≤◌, ◌≡◌, [], ◌∷◌, length};
ghost use Rattle.print.specs.Text.{text, followed, listed, number, members, answer, Answers};
ghost use Rattle.print.specs.Leaves.{Puts};

fn put_byte(out: &mut [u8], at: usize, byte: u8) -> usize
    requires { at ≤ 4096 }
    ensures { Puts out.old out.new at result (byte ∷ []) 1 }
{
    order::store(out, at, byte);
    at + 1
}

// By hand, and no `Display`: the buffer is lent, and where it ends the text is cut (`Puts`).
// The decimal digits of n.
fn put_text(out: &mut [u8], at: usize, n: u32) -> usize
    requires { at ≤ 2048 }
    ensures { Puts out.old out.new at result (text n) 10 }
{
    if n < 10 {
        return put_byte(out, at, b'0' + n as u8);
    }
    let next = put_text(out, at, n / 10);
    put_byte(out, next, b'0' + (n % 10) as u8)
}

// A byte and the decimal digits of n.
fn put_number(out: &mut [u8], at: usize, byte: u8, n: u32) -> usize
    requires { at ≤ 2047 }
    ensures { Puts out.old out.new at result (byte ∷ text n) 11 }
{
    let next = put_byte(out, at, byte);
    put_text(out, next, n)
}

// The members of a list, each after a comma.
fn put_others(out: &mut [u8], at: usize, list: &[u32]) -> usize
    requires at_bound { at ≤ 1024 }
    requires list_len_bound { length list.now ≤ 64 }
    ensures { Puts out.old out.new at result (followed list.now) (11 * length list.now) }
{
    let mut next = at;
    for n in list {
        next = put_number(out, next, b',', *n);
    }
    next
}

// The members of a list, parted by commas.
fn put_list(out: &mut [u8], at: usize, list: &[u32]) -> usize
    requires at_bound { at ≤ 513 }
    requires list_len_bound { length list.now ≤ 64 }
    ensures { Puts out.old out.new at result (listed list.now) (1 + 11 * length list.now) }
{
    match list {
        [] => put_byte(out, at, b'-'),
        [first, others @ ..] => {
            let next = put_text(out, at, *first);
            put_others(out, next, others)
        }
    }
}

// A tab and the members of a list.
fn put_members(out: &mut [u8], at: usize, list: &[u32]) -> usize
    requires at_bound { at ≤ 512 }
    requires list_len_bound { length list.now ≤ 64 }
    ensures { Puts out.old out.new at result (9 ∷ listed list.now) (2 + 11 * length list.now) }
{
    let next = put_byte(out, at, b'\t');
    put_list(out, next, list)
}

// The four kinds of answer differ in their fields: one function for all would need a list of fields, and be no plainer.

// A letter and one number: a refusal, or 0 where nothing more is answered.
pub fn write_number(out: &mut [u8], letter: u8, n: u32) -> usize
    ensures { Answers out.old out.new result (answer letter (number n ∷ [])) }
{
    let begun = put_byte(out, 0, letter);
    let end = put_number(out, begun, b'\t', n);
    put_byte(out, end, b'\n')
}

// A letter, 0 and two numbers.
pub fn write_numbers(out: &mut [u8], letter: u8, n: u32, m: u32) -> usize
    ensures { Answers out.old out.new result (answer letter (number 0 ∷ number n ∷ number m ∷ [])) }
{
    let begun = put_byte(out, 0, letter);
    let accepted = put_number(out, begun, b'\t', 0);
    let first = put_number(out, accepted, b'\t', n);
    let end = put_number(out, first, b'\t', m);
    put_byte(out, end, b'\n')
}

// A letter, 0, a number and a list.
pub fn write_list(out: &mut [u8], letter: u8, n: u32, list: &[u32]) -> usize
    requires { length list.now ≤ 64 }
    ensures { Answers out.old out.new result (answer letter (number 0 ∷ number n ∷ members list.now ∷ [])) }
{
    let begun = put_byte(out, 0, letter);
    let accepted = put_number(out, begun, b'\t', 0);
    let first = put_number(out, accepted, b'\t', n);
    let end = put_members(out, first, list);
    put_byte(out, end, b'\n')
}

// A letter, 0, a number and two lists.
pub fn write_lists(out: &mut [u8], letter: u8, n: u32, list: &[u32], other: &[u32]) -> usize
    requires list_len_bound { length list.now ≤ 16 }
    requires other_len_bound { length other.now ≤ 16 }
    ensures { Answers out.old out.new result (answer letter (number 0 ∷ number n ∷ members list.now ∷ members other.now ∷ [])) }
{
    let begun = put_byte(out, 0, letter);
    let accepted = put_number(out, begun, b'\t', 0);
    let first = put_number(out, accepted, b'\t', n);
    let second = put_members(out, first, list);
    let end = put_members(out, second, other);
    put_byte(out, end, b'\n')
}
