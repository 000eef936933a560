// Slices to lend, whose words are known before the call, and summed up after it.
ghost use Rattle.std.specs.Prelude.{◌<◌};

// Gives each word of a slice a number of its own, counted from the first one in strides.
pub(crate) fn fill(store: &mut [u32], first: u32) {
    let mut word = first;
    for place in store.iter_mut() {
        *place = word;
        word = word.wrapping_add(100003);
    }
}

// One digit more at the end of a number to the base 1000003, modulo the prime 4294967311.
fn with_digit(total: u64, word: u32) -> u64
    requires { total < 4294967311 }
    ensures { result < 4294967311 }
{
    (total * 1000003 + u64::from(word)) % 4294967311
}

// The number that has the words of a slice as its digits.
pub(crate) fn sum(store: &[u32]) -> u64 {
    let mut total: u64 = 0;
    for word in store {
        total = with_digit(total, *word);
    }
    total
}
