// Memories of any bytes, made from a seed, and a sum that tells what a memory holds. The model in host/ has the
// same.

// The generator's next number; the upper bits are the better ones.
fn next(seed: u32) -> u32 {
    seed.wrapping_mul(1664525).wrapping_add(1013904223)
}

// One in so many bytes is FF, and the others are under a number.
fn strewn(a: u32, b: u32, every: usize, under: usize) -> u8 {
    match (a as usize / 65536).checked_rem(every) {
        None => 0,
        Some(0) => 0xFF,
        Some(_) => match (b as usize / 65536).checked_rem(under) {
            None => 0,
            Some(byte) => (byte % 256) as u8,
        },
    }
}

// Fills a memory with bytes of any value.
pub fn strew(memory: &mut [u8], seed: u32, every: usize, under: usize) {
    let mut state = seed;
    for byte in memory {
        let a = next(state);
        state = next(a);
        *byte = strewn(a, state, every, under);
    }
}

// The sum of a memory.
pub fn sum(memory: &[u8]) -> u32 {
    memory.iter().fold(0u32, |sum, byte| {
        sum.wrapping_mul(31).wrapping_add(u32::from(*byte))
    })
}
