//! Codes of values: FNV-1a with 64 bits, its low bits and its digits; and the shorter codes of old documents.

ghost use Rattle.std.specs.Prelude.{◌≡◌, ◌≤◌, ◌<◌, ◌^◌, ◌*◌, ◌-◌};
ghost use Rattle.elem_core.specs.Codes.{text_code, old_text_code, masked_code, digit_at};

/// The code of a value: what a trie sorts it by.
pub type Code = u64;

/// The number of bits of a code, and so the most that a mask may keep.
pub const CODE_BITS: u32 = 64;

/// The depth of a code's last digit, which has the bits that the others leave.
pub const DEEPEST: u8 = 12;

/// The number of digits of a code, and so the most trie rows on a way from a root.
pub const LEVELS: u8 = DEEPEST + 1;

/// FNV-1a with 64 bits, the public hash of Fowler, Noll and Vo, over the bytes.
#[tactic(auto, unfolding(crate::specs::Codes::text_code))]
pub fn fnv64(bytes: &[u8]) -> Code
    ensures { result ≡ text_code bytes.now }
{
    let mut code: u64 = 14_695_981_039_346_656_037;
    for byte in bytes {
        code = (code ^ u64::from(*byte)).wrapping_mul(1_099_511_628_211);
    }
    code
}

/// FNV-1a with 32 bits over the bytes: the codes by which the tries of documents of version 1 go.
#[tactic(auto, unfolding(crate::specs::Codes::old_text_code))]
pub fn fnv32(bytes: &[u8]) -> u32
    ensures { result ≡ old_text_code bytes.now }
{
    let mut code: u32 = 2_166_136_261;
    for byte in bytes {
        code = (code ^ u32::from(*byte)).wrapping_mul(16_777_619);
    }
    code
}

/// The low `bits` bits of the code, a number below 2 to the power of `bits`; the others are 0.
pub fn masked(code: Code, bits: u32) -> Code
    requires { bits ≤ CODE_BITS }
    ensures kept { result ≡ masked_code code bits }
    ensures small { result < 2 ^ bits }
{
    if bits == CODE_BITS {
        code
    } else {
        code & ((1 << bits) - 1)
    }
}

/// The digit of the code at the depth: 0 to 31, and at `DEEPEST` no more than the bits that are left there can say.
pub fn digit(code: Code, depth: u8) -> u32
    requires { depth ≤ DEEPEST }
    ensures read { result ≡ digit_at code depth }
    ensures small { result < 32 }
    ensures last { depth ≡ DEEPEST → result < 2 ^ (CODE_BITS - 5 * DEEPEST) }
{
    ((code >> (5 * u32::from(depth))) & 31) as u32
}
