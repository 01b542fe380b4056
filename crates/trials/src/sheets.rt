// Papers for the trials, written word by word. The module is compiled for tests alone, and nothing of it is public.
use std::alloc::{AllocError, Global};
use words::{Part, Refusal};

// A paper, and the number and the place of the refusal that it meets, if it meets one.
#[derive(Clone, Copy)]
pub struct Trial {
    pub words: &'static [u32],
    pub refused: Option<(u32, usize)>,
}

// Three tanks and two valves: valve 0 takes 1 from tank 0 and gives 1 to tank 1, valve 1 takes 1 from each of tanks 1 and 2 and gives 2 to tank 2.
pub static MIXER: [u32; 6] = [
    0x1000_0182,
    0x2000_0001,
    0x2041_0001,
    0x2042_0001,
    0x3001_0001,
    0x3042_0002,
];

// The number and the place of the refusal, if the answer is one.
pub(crate) fn refusal_of<T: Drop, F: Drop>(answer: Result<T, F>) -> Option<(u32, usize)>
where
    Refusal: From<F>,
{
    match answer {
        Ok(_) => None,
        Err(fault) => {
            let Refusal { number, place, .. } = Refusal::from(fault);
            Some((number, place))
        }
    }
}

// One word more.
pub(crate) fn put(bytes: &mut Vec<u8>, word: u32) -> Result<(), AllocError> {
    for byte in word.to_be_bytes() {
        bytes.push(byte)?;
    }
    Ok(())
}

// The words as bytes. Here and in other trials the heap and the words, and source and target, are what a trial lists one by one,
// and so parameters of their own.
pub(crate) fn written(heap: Global, words: &[u32]) -> Result<Vec<u8>, AllocError> {
    let mut bytes = Vec::new(heap);
    for word in words {
        put(&mut bytes, *word)?;
    }
    Ok(bytes)
}

// A head and so many words after it: the first of them, and each next one greater by the step.
pub(crate) fn written_out(
    heap: Global,
    head: u32,
    first: u32,
    step: u32,
    count: usize,
) -> Result<Vec<u8>, AllocError> {
    let mut bytes = written(heap, &[head])?;
    let mut word = first;
    for _ in 0..count {
        put(&mut bytes, word)?;
        word = word.wrapping_add(step);
    }
    Ok(bytes)
}

// The first trial that meets another answer than it tells, by its place in the table: its words after a head, read by `met`.
pub(crate) fn first_wrong<F: Fn(&[u8]) -> Option<(u32, usize)>>(
    heap: Global,
    head: &[u32],
    trials: &[Trial],
    met: F,
) -> Result<Option<usize>, AllocError>
    requires { F.IsAlwaysCallable met }
{
    for (row, trial) in trials.iter().enumerate() {
        let mut bytes = written(heap, head)?;
        for word in trial.words {
            put(&mut bytes, *word)?;
        }
        if met(&bytes) != trial.refused {
            return Ok(Some(row));
        }
    }
    Ok(None)
}

// The first unnamed bit that is not refused at its word: the place of a word, and its unnamed bits from the lowest to before the highest.
pub(crate) fn first_unnoticed<F: Fn(&[u8]) -> Option<(u32, usize)>, const N: usize>(
    heap: Global,
    words: [u32; N],
    bits: &[(usize, u32, u32)],
    met: F,
) -> Result<Option<(usize, u32)>, AllocError>
    requires { F.IsAlwaysCallable met }
{
    for &(place, low, high) in bits {
        for bit in low..high {
            if place >= N || bit >= 32 {
                return Ok(Some((place, bit)));
            }
            let mut changed = words;
            changed[place] |= 1 << bit;
            let bytes = written(heap, &changed)?;
            if met(&bytes) != Some((6, place)) {
                return Ok(Some((place, bit)));
            }
        }
    }
    Ok(None)
}

// The first fault that names another number, place or part than is told of it, by its place in the table.
pub(crate) fn first_misnamed<F: Copy>(faults: &[(F, u32, usize, Part)]) -> Option<usize>
where
    Refusal: From<F>,
{
    for (row, &(fault, number, place, part)) in faults.iter().enumerate() {
        let refusal = Refusal {
            number,
            place,
            part,
        };
        if Refusal::from(fault) != refusal {
            return Some(row);
        }
    }
    None
}
