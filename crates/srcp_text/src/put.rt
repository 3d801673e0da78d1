//! Bytes, numbers and moments, put at the end of a line that is being written.

ghost use Rattle.std.specs.Prelude.{◌≡◌, ◌+◌, ◌≤◌, ◌++◌, length, decimal};
ghost use Rattle.arrayvec.specs.ArrayVec.{array_vec_len};
ghost use Rattle.srcp_text.specs.Stamp.{stamp};

use arrayvec::ArrayVec;

/// The most bytes of a line that is written.
pub const LONGEST_WRITTEN: usize = 256;

/// Holds a line while its bytes are written. The bytes stand in the value itself: no memory is allocated.
pub type LineBuf = ArrayVec<u8, LONGEST_WRITTEN>;

/// Appends bytes as they are. The line must have capacity for these bytes.
#[inline(always)]
pub fn put_bytes<const N: usize>(bytes: &[u8], line: &mut ArrayVec<u8, N>)
    requires { array_vec_len line.old + length bytes.now ≤ N }
    ensures { line.new.items ≡ line.old.items ++ bytes.now }
{
    line.try_extend_from_slice(bytes).unwrap();
}

/// Appends a number in decimal, without leading zeros. The line must have capacity for the digits, at most 20 bytes.
#[inline]
pub fn put_number<const N: usize>(number: u64, line: &mut ArrayVec<u8, N>)
    requires { array_vec_len line.old + length (decimal number) ≤ N }
    ensures { line.new.items ≡ line.old.items ++ decimal number }
{
    if number < 10 {
        line.push(b'0' + number as u8);
    } else if number < 100 {
        line.push(b'0' + (number / 10) as u8);
        line.push(b'0' + (number % 10) as u8);
    } else {
        put_long_number(number, line);
    }
}

/// Appends a number of three digits or more. A call of its own spares shorter numbers the buffer.
#[inline(never)]
fn put_long_number<const N: usize>(number: u64, line: &mut ArrayVec<u8, N>)
    requires { array_vec_len line.old + length (decimal number) ≤ N }
    ensures { line.new.items ≡ line.old.items ++ decimal number }
{
    let mut digits = [0; 20];
    let start = itoa::write_digits(number, &mut digits, 20);
    put_bytes(&digits[start..], line);
}

/// Appends the stamp of a moment of `moment` milliseconds, as `12.050`: the seconds in decimal, a point, and the
/// remaining milliseconds in three digits. The line must have capacity for the stamp, at most 21 bytes.
#[inline(always)]
pub fn put_stamp<const N: usize>(moment: u64, line: &mut ArrayVec<u8, N>)
    requires { array_vec_len line.old + length (stamp moment) ≤ N }
    ensures { line.new.items ≡ line.old.items ++ stamp moment }
{
    put_number(moment / 1000, line);
    let thousandths = moment % 1000;
    put_bytes(
        &[
            b'.',
            b'0' + (thousandths / 100) as u8,
            b'0' + (thousandths / 10 % 10) as u8,
            b'0' + (thousandths % 10) as u8,
        ],
        line,
    );
}
