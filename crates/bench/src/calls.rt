// Requests, one call each: their answer's word comes back, and of a turn the record's steps done.
use matrix::job::Job;
use requests::{Size, word};

#[unsafe(no_mangle)]
pub extern "C" fn bench_check(rows: u64, columns: u64, a: &[u64]) -> u64 {
    let s = Size { rows, columns };
    word(matrix::check::check(s, a))
}

#[unsafe(no_mangle)]
pub extern "C" fn bench_combination(
    rows: u64,
    columns: u64,
    d: u8,
    a: &[u64],
    b: &[u64],
    out: &mut [u64],
) -> u64 {
    let s = Size { rows, columns };
    word(matrix::combination::combination(s, s, d, a, b, out))
}

#[unsafe(no_mangle)]
pub extern "C" fn bench_negation(rows: u64, columns: u64, a: &[u64], out: &mut [u64]) -> u64 {
    let s = Size { rows, columns };
    word(matrix::negation::negation(s, a, out))
}

#[unsafe(no_mangle)]
pub extern "C" fn bench_scaling(rows: u64, columns: u64, d: u8, a: &[u64], out: &mut [u64]) -> u64 {
    let s = Size { rows, columns };
    word(matrix::scaling::scaling(s, d, a, out))
}

#[unsafe(no_mangle)]
pub extern "C" fn bench_transpose(rows: u64, columns: u64, a: &[u64], out: &mut [u64]) -> u64 {
    let s = Size { rows, columns };
    word(matrix::transpose::transpose(s, a, out))
}

#[unsafe(no_mangle)]
pub extern "C" fn bench_pack(rows: u64, columns: u64, cells: &[u8], out: &mut [u64]) -> u64 {
    let s = Size { rows, columns };
    word(matrix::pack::pack(s, cells, out))
}

#[unsafe(no_mangle)]
pub extern "C" fn bench_unpack(rows: u64, columns: u64, a: &[u64], out: &mut [u8]) -> u64 {
    let s = Size { rows, columns };
    word(matrix::unpack::unpack(s, a, out))
}

#[unsafe(no_mangle)]
pub extern "C" fn bench_product(
    m: u64,
    l: u64,
    n: u64,
    width: u64,
    a: &[u64],
    b: &[u64],
    table: &mut [u64],
    product: &mut [u64],
) -> u64 {
    let x = Size {
        rows: m,
        columns: l,
    };
    let y = Size {
        rows: l,
        columns: n,
    };
    word(matrix::product::product(x, y, width, a, b, table, product))
}

#[unsafe(no_mangle)]
pub extern "C" fn bench_opening(
    m: u64,
    l: u64,
    n: u64,
    width: u64,
    a: &[u64],
    b: &[u64],
    table: &mut [u64],
    product: &mut [u64],
) -> u64 {
    let x = Size {
        rows: m,
        columns: l,
    };
    let y = Size {
        rows: l,
        columns: n,
    };
    let opened = matrix::opening::opening(x, y, width, a, b, table, product);
    word(opened)
}

// A refusal gives a number that no list has.
#[unsafe(no_mangle)]
pub extern "C" fn bench_turn(
    m: u64,
    l: u64,
    n: u64,
    width: u64,
    done: u64,
    a: &[u64],
    b: &[u64],
    table: &mut [u64],
    product: &mut [u64],
    budget: u32,
) -> u64 {
    let job = Job {
        m,
        l,
        n,
        width,
        done,
    };
    let turned = matrix::turn::turn(job, a, b, table, product, budget);
    turned.map_or(u64::MAX, |turned| turned.job.done)
}
