//! Numbers in bytes, and parts of a block that stand several times in a row.
ghost use Rattle.std.specs.Prelude.{◌≡◌, ℕ, ◌+◌, ◌*◌, ◌^◌, ◌<◌, ◌≤◌, List, length, drop, slice_index};
ghost use Rattle.std.specs.List.{flat_map, AllByRecursion};
ghost use Rattle.dayfile.specs.Bytes.{number, value, each, laid};

/// The byte at a place; a byte past the end counts as 0.
pub fn byte_at(bytes: &[u8], at: usize) -> u8
    ensures { result ≡ slice_index bytes.now at }
{
    bytes.get(at).copied().unwrap_or(0)
}

/// The two-byte number at a place, the lowest byte first; a byte past the end counts as 0.
pub fn half_at(bytes: &[u8], at: usize) -> u16
    ensures { result ≡ value at 2 bytes.now }
{
    u16::from_le_bytes(bytes_at(bytes, at))
}

/// The four-byte number at a place, likewise.
pub fn word_at(bytes: &[u8], at: usize) -> u32
    ensures { result ≡ value at 4 bytes.now }
{
    u32::from_le_bytes(bytes_at(bytes, at))
}

/// The `N` bytes from a place on; a byte past the end counts as 0.
fn bytes_at<const N: usize>(bytes: &[u8], at: usize) -> [u8; N]
    ensures { number result ≡ value at N bytes.now }
{
    let rest = bytes.get(at..).unwrap_or(&[]);
    match rest.first_chunk() {
        Some(whole) => *whole,
        None => padded(rest),
    }
}

/// Fewer than `N` bytes, with zeros behind them.
#[cold]
fn padded<const N: usize>(bytes: &[u8]) -> [u8; N]
    requires { length bytes.now < N }
    ensures { number result ≡ number bytes.now }
{
    let mut padded = [0; N];
    padded[..bytes.len()].copy_from_slice(bytes);
    padded
}

/// The four-byte number at a place, of which no byte is past the end.
pub(crate) fn word_inside(bytes: &[u8], at: usize) -> u32
    requires { at + 4 ≤ length bytes.now }
    ensures { result ≡ value at 4 bytes.now }
{
    u32::from_le_bytes(*bytes[at..].first_chunk().unwrap())
}

/// What a block holds at a place: a number, or what stands several times in a row, as a region's loads or an owner.
pub(crate) trait Part {
    /// How many bytes the part takes.
    const WIDTH: usize;

    ghost WIDTH: { ℕ };

    ghost bytes: { Self → List ℕ };

    ghost from: { List ℕ → Self };

    ghost long: { ((x : Self) → length (bytes x) ≡ WIDTH) };

    ghost few: { WIDTH < 256 };

    ghost fits: { Self → Type 0 };

    /// The part at a place.
    fn read(block: &[u8], at: usize) -> Self
        requires { at < 2 ^ 31 }
        ensures { result ≡ from (drop at block.now) };

    /// Writes the part at a place.
    fn write(&self, block: &mut [u8], at: usize)
        requires { at + WIDTH ≤ length block.old }
        ensures written { block.new ≡ laid block.old at (bytes self.now) }
        ensures sound { fits self.now };
}

/// The first `N` parts of bytes, one after the other.
pub(crate) fn read_parts<T: Part + Copy + Default, const N: usize>(bytes: &[u8]) -> [T; N]
    requires { N < 2 ^ 16 }
    ensures { result ≡ each T.Part.from T.Part.WIDTH N bytes.now }
{
    let mut parts = [T::default(); N];
    for (i, part) in parts.iter_mut().enumerate() {
        *part = T::read(bytes, i * T::WIDTH);
    }
    parts
}

/// Writes parts one after the other.
pub(crate) fn write_parts<T: Part>(parts: &[T], block: &mut [u8], at: usize)
    requires { at + length parts.now * T.Part.WIDTH ≤ length block.old }
    ensures written { block.new ≡ laid block.old at (flat_map T.Part.bytes parts.now) }
    ensures sound { AllByRecursion T.Part.fits parts.now }
{
    for (i, part) in parts.iter().enumerate() {
        part.write(block, at + i * T::WIDTH);
    }
}

/// Writes bytes over those at a place.
pub(crate) fn write_bytes(bytes: &[u8], block: &mut [u8], at: usize)
    requires { at + length bytes.now ≤ length block.old }
    ensures { block.new ≡ laid block.old at bytes.now }
{
    block[at..at + bytes.len()].copy_from_slice(bytes);
}
