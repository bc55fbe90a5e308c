// Little-endian numbers of 2, 4 and 8 bytes in a slice of bytes. Each compiles to one load or one store.
ghost use Rattle.std.specs.Prelude.{◌≡◌, ◌+◌, ◌≤◌, length};
ghost use Rattle.theory.specs.Fields.{field, put_field};

// The number in the 2 bytes from `at` on.
pub fn u16_at(b: &[u8], at: usize) -> u16
    requires { at + 2 ≤ length b.now }
    ensures { result ≡ field 2 b.now at }
{
    u16::from_le_bytes([b[at], b[at + 1]])
}

// The number in the 4 bytes from `at` on.
pub fn u32_at(b: &[u8], at: usize) -> u32
    requires { at + 4 ≤ length b.now }
    ensures { result ≡ field 4 b.now at }
{
    u32::from_le_bytes([b[at], b[at + 1], b[at + 2], b[at + 3]])
}

// The number in the 8 bytes from `at` on.
pub fn u64_at(b: &[u8], at: usize) -> u64
    requires { at + 8 ≤ length b.now }
    ensures { result ≡ field 8 b.now at }
{
    u64::from_le_bytes([
        b[at],
        b[at + 1],
        b[at + 2],
        b[at + 3],
        b[at + 4],
        b[at + 5],
        b[at + 6],
        b[at + 7],
    ])
}

// Puts the number v in the 4 bytes from `at` on.
pub fn put_u32(b: &mut [u8], at: usize, v: u32)
    requires { at + 4 ≤ length b.old }
    ensures { b.new ≡ put_field 4 b.old at v }
{
    b[at..at + 4].copy_from_slice(&v.to_le_bytes());
}

// Puts the number v in the 8 bytes from `at` on.
pub fn put_u64(b: &mut [u8], at: usize, v: u64)
    requires { at + 8 ≤ length b.old }
    ensures { b.new ≡ put_field 8 b.old at v }
{
    put_u32(b, at, (v % 4294967296) as u32);
    put_u32(b, at + 4, (v / 4294967296) as u32);
}
