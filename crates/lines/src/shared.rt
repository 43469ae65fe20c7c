// What the crates of the programs share: room, whose length is known without counting it, and the way from standard input to standard
// output.
ghost use Rattle.std.specs.Prelude.{◌≡◌, ◌⊎◌, ℕ, ◌+◌, ◌≤◌, length, get_or, OnOk};
ghost use Rattle.model.specs.Answers.{report, counted};

use model::Refusal;
use std::io::{self, Read, Write};

// One value, N times. The number is a parameter, so that no proof has to count them.
pub fn filled<T: Copy, const N: usize>(x: T) -> [T; N]
    ensures len { length result ≡ N }
    ensures all { (k : ℕ) → get_or result k x ≡ x }
{
    [x; N]
}

// Zeros.
pub fn room<const N: usize>() -> [u16; N]
    ensures len { length result ≡ N }
    ensures zeros { (k : ℕ) → get_or result k 0 ≡ 0 }
{
    filled(0)
}

// A program: reads at most `most` bytes and one more, so that a longer input is told, has the text of that printed, and writes what was printed.
// The room for output is left as it was where reading fails, and else as `print` leaves it.
pub fn convert<F: FnOnce(&[u8], &mut [u8]) -> Result<u32, Refusal>>(
    reader: impl Read + Drop,
    mut writer: impl Write + Drop,
    most: usize,
    input: &mut [u8],
    output: &mut [u8],
    print: F,
) -> io::Result<()>
    requires room { length input.old ≡ most + 1 }
    requires callable { F.IsAlwaysCallable print }
    requires fits { (text : _) (into : _) (answer : _) (printed : _) (n : ℕ) → F.post print text into answer printed → report answer ≡ counted n → n ≤ length printed.now }
    ensures printed { (output.new ≡ output.old) ⊎ ((text : _) × (into : _) × (answer : _) × (printed : _) × F.post print text into answer printed × (into.now ≡ output.old) × (printed.now ≡ output.new)) }
    ensures done { OnOk result ((text : _) × (into : _) × (answer : _) × (printed : _) × F.post print text into answer printed × (into.now ≡ output.old) × (printed.now ≡ output.new)) }
{
    let room = most + 1;
    let n = io::copy(&mut reader.take(room as u64), &mut &mut input[..])?;
    let answer = print(&input[..room.min(n as usize)], output);
    // The room is enough for every text, so 17 is never answered.
    let Ok(size) = answer else {
        return Ok(());
    };
    writer.write_all(&output[..size as usize])
}
