use key_slots::slot_of;

/// The sum of the slots of so many keys of 32 bytes, which differ in the number that they end with.
pub fn sum_of_slots(count: usize) -> u64 {
    let mut key = *b"session:000000000000000000000000";
    let mut sum = 0u64;
    for _ in 0..count {
        sum = sum.wrapping_add(u64::from(slot_of(&key).get()));
        count_up(&mut key[8..]);
    }
    sum
}

/// Counts decimal digits up by one; after all nines come all zeros.
fn count_up(digits: &mut [u8]) {
    for back in 1..=digits.len() {
        let place = digits.len() - back;
        if digits[place] < b'9' {
            digits[place] += 1;
            return;
        }
        digits[place] = b'0';
    }
}
