//! Numbered examples of the library's calls, the rows. Each is a function that returns whether every call of its row
//! returned what was expected.
ghost use Rattle.std.specs.Prelude.{◌≡◌, ◌≤◌};
ghost use Rattle.std.specs.Io.KnownBytes.{Appends};
ghost use Rattle.std.specs.List.{flat_map};
ghost use Rattle.micromap_testing.specs.Rows.{ok_line};

mod compared;
mod maps;
mod sets;
mod streamed;

use crate::report::write_rows;
use std::alloc::Global;
use std::io::Write;

/// The numbers of the rows.
pub const NUMBERS: [usize; 32] = [
    1, 2, 3, 4, 5, 6, 7, 8, 9, 10, 11, 12, 13, 14, 15, 16, 17, 18, 19, 20, 21, 22, 23, 24, 25, 26,
    27, 28, 29, 30, 31, 32,
];

/// Performs the rows in the order of their numbers, and writes `row <n>: ok` or `row <n>: wrong` for each.
///
/// The result is 0 if all are ok and every line was written, else 1. The first failed write ends the run.
pub fn run_rows<W: Write>(alloc: Global, out: &mut W) -> u8
    ensures bound { result ≤ 1 }
    ensures lines { result ≡ 0 → Appends (W.contents out.old) (W.contents out.new) (flat_map ok_line NUMBERS) }
{
    write_rows(out, &NUMBERS, |number| is_ok(alloc, number))
}

// Returns whether the values of the row with this number came out. A row that finds no memory is wrong.
fn is_ok(alloc: Global, number: usize) -> bool {
    match number {
        1 => maps::row_1_checked_insert_has_three_outcomes(),
        2 => maps::row_2_a_map_without_slots(),
        3 => maps::row_3_a_removal_keeps_the_order(),
        4 => compared::row_4_equality_ignores_order_and_capacity(),
        5 => compared::row_5_room_tells_maps_apart(),
        6 => compared::row_6_fair_calls_do_not_tell_maps_apart(),
        7 => maps::row_7_insert_keeps_the_stored_key(),
        8 => sets::row_8_retain_goes_from_the_front(),
        9 => maps::row_9_keys_come_from_the_front(),
        10 => maps::row_10_a_drained_map_is_empty_at_once(),
        11 => maps::row_11_a_repeated_key_has_its_last_value(),
        12 => maps::row_12_an_entry_makes_a_value_for_a_new_key(),
        13 => maps::row_13_update_disjoint_passes_over_a_missing_key(),
        14 => sets::row_14_items_before_the_misfit_stay(),
        15 => sets::row_15_hints_of_the_operations(),
        16 => sets::row_16_a_full_set_refuses_a_new_item(),
        17 => sets::row_17_printed_maps_and_sets(alloc),
        18 => streamed::row_18_an_object_is_read_or_its_first_fault(alloc).unwrap_or(false),
        19 => compared::row_19_steps_of_a_look_up(),
        20 => compared::row_20_each_side_names_the_difference(),
        21 => sets::row_21_subsets_and_disjoint_sets(),
        22 => sets::row_22_differences_of_words(alloc).unwrap_or(false),
        23 => sets::row_23_sets_of_clones().unwrap_or(false),
        24 => maps::row_24_texts_are_found_by_a_probe(alloc).unwrap_or(false),
        25 => streamed::row_25_a_misfit_ends_the_reading(),
        26 => streamed::row_26_a_failing_sink_has_what_came_before(),
        27 => streamed::row_27_json_of_a_map_and_a_set(alloc).unwrap_or(false),
        28 => maps::row_28_the_first_misfit_is_named(),
        29 => maps::row_29_update_all_doubles_the_values(),
        30 => maps::row_30_clones_of_iterators(),
        31 => compared::row_31_maps_that_are_the_same_stay_so(),
        32 => compared::row_32_steps_of_a_comparison(),
        _ => false,
    }
}
