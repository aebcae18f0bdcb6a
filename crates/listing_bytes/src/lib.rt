// Bytes, numerals and the items of a form, written into a lent slice from a place on.
#![tactic(auto)]

ghost use Rattle.std.specs.Prelude.{[], ◌∷◌, ◌++◌, ◌+◌, ◌≤◌, ◌<◌, length};
ghost use Rattle.listing_bytes.specs.Numerals.{decimal};
ghost use Rattle.listing_bytes.specs.Forms.{items, bytes as quoted};
ghost use Rattle.listing_bytes.specs.Writing.{Writes};

// Writes one byte at place `at`, and says where the next one goes.
// The slice and the place stay two parameters, here and in all that writes a line: `Writes` says what stands from the place that a call is given to the one that it answers, and a struct of both would say it of its own fields.
pub fn put_byte(out: &mut [u8], at: usize, b: u8) -> usize
    requires { at < length out.old }
    ensures { Writes out.old at (b ∷ []) result out.new }
{
    out[at] = b;
    at + 1
}

// Writes the bytes from place `at` on.
// It stays beside `write_str`, which takes a `&str` and may answer an error: here bytes are written, of which the contract asks nothing but that the lent slice has room for them.
pub fn put_bytes(out: &mut [u8], at: usize, bytes: &[u8]) -> usize
    requires { at + length bytes.now ≤ length out.old }
    ensures { Writes out.old at bytes.now result out.new }
{
    let end = at + bytes.len();
    out[at..end].copy_from_slice(bytes);
    end
}

// Writes the numeral of n, its last digit last.
// It stays beside `Display`, whose law says what is written only where the writer answers no error: the lent slice has the room that the contract asks for, so that no call here fails, and through a writer each would have a failure to hand on.
pub fn put_numeral(out: &mut [u8], at: usize, n: u32) -> usize
    requires { at + length (decimal n) ≤ length out.old }
    ensures { Writes out.old at (decimal n) result out.new }
{
    if n < 10 {
        return put_byte(out, at, b'0' + n as u8);
    }
    let last = put_numeral(out, at, n / 10);
    put_byte(out, last, b'0' + (n % 10) as u8)
}

// Writes a number as an item: a space and its numeral.
// It stays beside `Display`, as `put_numeral` does.
pub fn put_number(out: &mut [u8], at: usize, n: u32) -> usize
    requires { at + 11 ≤ length out.old }
    ensures { Writes out.old at (32 ∷ decimal n) result out.new }
{
    let next = put_byte(out, at, b' ');
    put_numeral(out, next, n)
}

// Writes a name as an item: a space and the name.
// It stays beside `Display`, as `put_bytes` does.
pub fn put_name(out: &mut [u8], at: usize, name: &[u8]) -> usize
    requires { at + 1 + length name.now ≤ length out.old }
    ensures { Writes out.old at (32 ∷ name.now) result out.new }
{
    let next = put_byte(out, at, b' ');
    put_bytes(out, next, name)
}

// Writes the end of a line: the bracket and byte 10.
pub fn put_end(out: &mut [u8], at: usize) -> usize
    requires { at + 2 ≤ length out.old }
    ensures { Writes out.old at (quoted ")\n") result out.new }
{
    put_bytes(out, at, b")\n")
}

// Writes two numbers as items and the end of the line.
// It stays beside `Display`, as `put_numeral` does.
pub fn put_pair(out: &mut [u8], at: usize, a: u32, b: u32) -> usize
    requires { at + 24 ≤ length out.old }
    ensures { Writes out.old at (items (decimal a ∷ decimal b ∷ []) ++ quoted ")\n") result out.new }
{
    let first = put_number(out, at, a);
    let second = put_number(out, first, b);
    put_end(out, second)
}
