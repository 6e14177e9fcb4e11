// Numbers of one, two, four and eight bytes, as bytes say them: most significant first.
ghost use Rattle.std.specs.Prelude.{◌≡◌, ℕ, length};
ghost use Rattle.octets.specs.Numbers.{be, to_be};

// A number that takes a fixed count of bytes.
pub trait Number {
    ghost BYTES: { ℕ };

    // The number, whatever its type.
    ghost value: { Self → ℕ };

    const BYTES: usize;

    // The number that the bytes say.
    fn read(bytes: &[u8]) -> Self
        requires { length bytes.now ≡ BYTES }
        ensures { value result ≡ be bytes.now };

    // The bytes of the number.
    fn write(self, bytes: &mut [u8])
        requires { length bytes.old ≡ BYTES }
        ensures { bytes.new ≡ to_be BYTES (value self) };
}

impl Number for u8 {
    ghost BYTES = { 1 };

    ghost value = { λ x. x };

    const BYTES: usize = 1;

    fn read(bytes: &[u8]) -> u8 {
        bytes[0]
    }

    fn write(self, bytes: &mut [u8]) {
        bytes[0] = self;
    }
}

impl Number for u16 {
    ghost BYTES = { 2 };

    ghost value = { λ x. x };

    const BYTES: usize = 2;

    fn read(bytes: &[u8]) -> u16 {
        u16::from_be_bytes([bytes[0], bytes[1]])
    }

    fn write(self, bytes: &mut [u8]) {
        bytes.copy_from_slice(&u16::to_be_bytes(self));
    }
}

impl Number for u32 {
    ghost BYTES = { 4 };

    ghost value = { λ x. x };

    const BYTES: usize = 4;

    fn read(bytes: &[u8]) -> u32 {
        u32::from_be_bytes([bytes[0], bytes[1], bytes[2], bytes[3]])
    }

    fn write(self, bytes: &mut [u8]) {
        bytes.copy_from_slice(&u32::to_be_bytes(self));
    }
}

impl Number for u64 {
    ghost BYTES = { 8 };

    ghost value = { λ x. x };

    const BYTES: usize = 8;

    fn read(bytes: &[u8]) -> u64 {
        u64::from_be_bytes([
            bytes[0], bytes[1], bytes[2], bytes[3], bytes[4], bytes[5], bytes[6], bytes[7],
        ])
    }

    fn write(self, bytes: &mut [u8]) {
        bytes.copy_from_slice(&u64::to_be_bytes(self));
    }
}
