// The public calls by their numbers, each on the lent memory of a record.

use exports::words;
use exports_fit::{of_pmc_mean, of_swing};
use models::Fault;
use replaying::lists::Told;

// How many calls there are; they are numbered from 0 in the order of include/modelardb.h, but for those that came later
// and have the last numbers. Numbers and no enum: the list names a call by its number, and each is named once below.
pub const CALLS: u64 = 46;

// What stands for the answer to a line that lacks the number which a call is lent: no call answers it.
pub const NO_NUMBER: u64 = 99;

// The numbers that a call is handed, in the order of its parameters: those of 32 bits, and the others.
#[derive(Clone, Copy)]
pub struct Numbers {
    pub a: u32,
    pub b: u32,
    pub c: u32,
    pub d: u32,
    pub e: u32,
    pub k: u64,
    pub m: u64,
    pub n: u64,
}

// What a call answers; None where its line lacks the number that the call is lent. Of its memory, t holds timestamps, p and q bytes,
// v values, s a row of words that is only read and r one that is written, or a number. u is the number of entries in use and the words of
// their table.
pub fn answer(
    call: u64,
    x: Numbers,
    t: &[i64],
    s: &[u64],
    p: &mut [u8],
    q: &mut [u8],
    v: &mut [u32],
    r: &mut [u64],
    u: &mut [u64],
) -> Option<Told> {
    let fault = match call {
        0 => return Some(Told::given(exports::modelardb_widen(x.a))),
        1 => return Some(Told::given(exports::modelardb_narrow(x.k) as u64)),
        2..=3 => of_bounds(call, x, v, r),
        4..=6 => of_writing(call, x, p, v, r),
        7..=8 => of_reading(call, x, p, v),
        9..=14 => of_pmc_mean(call, x, s, v, r),
        15..=18 => of_swing(call, x, s, v, r),
        19..=21 => of_lines(call, x, t, v),
        22..=25 => of_the_choice(call, x, t, s, v, r),
        26..=27 => of_encoding(call, x, p, r),
        28..=29 => of_decoding(call, x, p, v),
        30 => of_segments_written(x, p, q, v, r),
        31..=33 => of_segments_read(call, x, t, p, q, v),
        34..=37 => of_the_reader(call, x, s, p, v, r),
        38..=39 | 45 => of_table_writing(call, x, p, v, r, u)?,
        40..=41 => of_table_reading(call, x, p, v, u)?,
        42..=43 => of_sizes(call, x, r)?,
        _ => of_rescue(x, p, r),
    };
    Some(Told::from(fault))
}

fn of_bounds(call: u64, x: Numbers, v: &mut [u32], r: &mut [u64]) -> Fault {
    match call {
        2 => exports::modelardb_is_value_within_error_bound(x.a, x.b, x.c, x.d, v),
        _ => exports::modelardb_maximum_allowed_deviation(x.a, x.b, x.k, r),
    }
}

fn of_writing(call: u64, x: Numbers, p: &mut [u8], v: &[u32], r: &mut [u64]) -> Fault {
    let used = x.k as usize;
    let count = x.m as usize;
    let k = x.n as usize;
    match call {
        4 => exports_stream::modelardb_macaque_v_new(x.a, x.b, x.c, x.d, r),
        5 => exports_stream::modelardb_macaque_v_compress_values(r, v, p),
        _ => exports_stream::modelardb_macaque_v_reopen(p, used, count, k, x.a, x.b, x.c, x.d, r),
    }
}

fn of_reading(call: u64, x: Numbers, p: &[u8], v: &mut [u32]) -> Fault {
    let count = x.k as usize;
    match call {
        7 => exports_stream::modelardb_macaque_v_grid(p, count, x.a, x.b, v),
        _ => exports_stream::modelardb_macaque_v_sum(p, count, x.a, x.b, v),
    }
}

fn of_pmc_mean(call: u64, x: Numbers, s: &[u64], v: &mut [u32], r: &mut [u64]) -> Fault {
    let n = x.k as usize;
    match call {
        9 => of_pmc_mean::modelardb_pmc_mean_new(x.a, x.b, r),
        10 => of_pmc_mean::modelardb_pmc_mean_fit_value(r, x.a),
        11 => of_pmc_mean::modelardb_pmc_mean_bytes_per_value(s, n, v),
        12 => of_pmc_mean::modelardb_pmc_mean_model(s, v),
        13 => of_pmc_mean::modelardb_pmc_mean_sum(n, x.a, v),
        _ => of_pmc_mean::modelardb_pmc_mean_grid(x.a, n, v),
    }
}

fn of_swing(call: u64, x: Numbers, s: &[u64], v: &mut [u32], r: &mut [u64]) -> Fault {
    match call {
        15 => of_swing::modelardb_swing_new(x.a, x.b, r),
        16 => of_swing::modelardb_swing_fit_data_point(r, words::time_in(x.k), x.a),
        17 => of_swing::modelardb_swing_bytes_per_value(s, x.k as usize, v),
        _ => of_swing::modelardb_swing_model(s, v),
    }
}

fn of_lines(call: u64, x: Numbers, t: &[i64], v: &mut [u32]) -> Fault {
    let start = words::time_in(x.k);
    let end = words::time_in(x.m);
    match call {
        19 => of_swing::modelardb_swing_sum_by_average(start, end, x.a, x.b, x.n as usize, v),
        20 => of_swing::modelardb_swing_sum_over(start, end, x.a, x.b, t, v),
        _ => of_swing::modelardb_swing_grid(start, end, x.a, x.b, t, v),
    }
}

fn of_the_choice(call: u64, x: Numbers, t: &[i64], s: &[u64], v: &[u32], r: &mut [u64]) -> Fault {
    let time = words::time_in(x.k);
    let m = x.k as usize;
    match call {
        22 => exports_choice::modelardb_model_builder_new(x.a, x.b, r),
        23 => exports_choice::modelardb_model_builder_try_to_update_models(r, time, x.a),
        24 => exports_choice::modelardb_model_builder_finish(s, m, r),
        _ => exports_choice::modelardb_choose_model(t, v, x.a, x.b, m, r),
    }
}

fn of_encoding(call: u64, x: Numbers, p: &mut [u8], r: &mut [u64]) -> Fault {
    match call {
        26 => exports_segments::modelardb_encode_values_for_pmc_mean(x.a, x.b, x.c, p, r),
        _ => exports_segments::modelardb_encode_values_for_swing(x.a, x.b, x.c, x.d, p, r),
    }
}

fn of_decoding(call: u64, x: Numbers, p: &[u8], v: &mut [u32]) -> Fault {
    match call {
        28 => exports_segments::modelardb_decode_values_for_pmc_mean(x.a, x.b, p, v),
        _ => exports_segments::modelardb_decode_values_for_swing(x.a, x.b, p, v),
    }
}

fn of_segments_written(x: Numbers, p: &mut [u8], q: &mut [u8], v: &[u32], r: &mut [u64]) -> Fault {
    exports_segments::modelardb_segment_write(x.a, x.b, x.c, x.d, x.e, v, p, q, r)
}

fn of_segments_read(call: u64, x: Numbers, t: &[i64], p: &[u8], q: &[u8], v: &mut [u32]) -> Fault {
    match call {
        31 => exports_segments::modelardb_segment_grid(x.a, t, x.b, x.c, p, q, v),
        32 => exports_segments::modelardb_segment_sum_by_average(x.a, t, x.b, x.c, p, q, v),
        _ => exports_segments::modelardb_segment_sum_over(x.a, t, x.b, x.c, p, q, v),
    }
}

fn of_the_reader(
    call: u64,
    x: Numbers,
    s: &[u64],
    p: &[u8],
    v: &mut [u32],
    r: &mut [u64],
) -> Fault {
    match call {
        34 => exports_reader::modelardb_reader_open(x.a, x.b, r),
        35 => exports_reader::modelardb_reader_next(p, r, v),
        36 => exports_reader::modelardb_reader_end(p, s),
        _ => exports_reader::modelardb_reader_last_value(p, x.k as usize, x.a, x.b, v),
    }
}

fn of_table_writing(
    call: u64,
    x: Numbers,
    p: &mut [u8],
    v: &[u32],
    r: &mut [u64],
    u: &mut [u64],
) -> Option<Fault> {
    let used = x.k as usize;
    let count = x.m as usize;
    let k = x.n as usize;
    let (first, table) = u.split_first_mut()?;
    let mut entries = *first as usize;
    let fault = match call {
        38 => exports_stream::modelardb_table_compress_values(r, v, p, table, &mut entries),
        39 => exports_table::modelardb_table_reopen(
            p,
            used,
            count,
            k,
            x.a,
            x.b,
            x.c,
            x.d,
            r,
            table,
            &mut entries,
        ),
        _ => exports_table::modelardb_table_rescue(
            p,
            used,
            count,
            x.a,
            x.b,
            x.c,
            x.d,
            r,
            table,
            &mut entries,
        ),
    };
    *first = entries as u64;
    Some(fault)
}

fn of_table_reading(call: u64, x: Numbers, p: &[u8], v: &mut [u32], u: &[u64]) -> Option<Fault> {
    let count = x.k as usize;
    let from = x.m as usize;
    let to = x.n as usize;
    let (first, table) = u.split_first()?;
    let entries = *first as usize;
    Some(match call {
        40 => exports_table::modelardb_table_check(p, count, x.a, x.b, table, entries),
        _ => exports_table::modelardb_table_range(p, count, x.a, x.b, table, entries, from, to, v),
    })
}

fn of_sizes(call: u64, x: Numbers, r: &mut [u64]) -> Option<Fault> {
    let count = x.k as usize;
    let first = r.first_mut()?;
    let mut most = *first as usize;
    let fault = match call {
        42 => exports_stream::modelardb_macaque_v_most_bits(count, x.a, &mut most),
        _ => exports_stream::modelardb_macaque_v_most_bytes(count, x.a, &mut most),
    };
    *first = most as u64;
    Some(fault)
}

fn of_rescue(x: Numbers, p: &mut [u8], r: &mut [u64]) -> Fault {
    let used = x.k as usize;
    let limit = x.m as usize;
    exports_stream::modelardb_macaque_v_rescue(p, used, limit, x.a, x.b, x.c, x.d, r)
}
