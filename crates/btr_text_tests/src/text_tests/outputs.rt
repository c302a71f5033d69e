//! Lines that define outputs and bring them up to date.
use super::fixture::{Said, Says, fit_no_form};
use crate::fixture::all_hold;
use btr_hist::Kernel;
use std::test::Fail;

const KERNELS: &[Said] = &[
    Said(
        "distiller ID sum 0 1 ONE",
        Says::Distiller(Kernel::Sum, 0, 1, 1, None),
    ),
    Said(
        "distiller ID mean 2 3 ONE",
        Says::Distiller(Kernel::Mean, 2, 3, 1, None),
    ),
    Said(
        "distiller ID least 4 5 ONE",
        Says::Distiller(Kernel::Least, 4, 5, 1, None),
    ),
    Said(
        "distiller ID greatest 6 7 ONE",
        Says::Distiller(Kernel::Greatest, 6, 7, 1, None),
    ),
    Said(
        "distiller ID count 8 9 ONE",
        Says::Distiller(Kernel::Count, 8, 9, 1, None),
    ),
    Said(
        "distiller ID delta 1 0 ONE",
        Says::Distiller(Kernel::Delta, 1, 0, 1, None),
    ),
    Said(
        "distiller ID minus 3 2 ONE TWO",
        Says::Distiller(Kernel::Minus, 3, 2, 1, Some(2)),
    ),
    Said(
        "distiller ID angle 5 4 TWO ONE",
        Says::Distiller(Kernel::Angle, 5, 4, 2, Some(1)),
    ),
    Said(
        "distiller ID hold 7 6 TWO TWO",
        Says::Distiller(Kernel::Hold, 7, 6, 2, Some(2)),
    ),
    Said(
        "distiller ID affine 2 3 4 5 6 ONE",
        Says::Distiller(Kernel::Affine { a: 2, b: 3, d: 4 }, 5, 6, 1, None),
    ),
    Said(
        "distiller ID affine -7 -8 -9 10 11 TWO",
        Says::Distiller(
            Kernel::Affine {
                a: -7,
                b: -8,
                d: -9,
            },
            10,
            11,
            2,
            None,
        ),
    ),
];

#[test]
fn each_kernel_is_read(rt: HostRuntime) -> Result<(), Fail> {
    all_hold(rt.alloc(), KERNELS)
}

const BOUNDS: &[Said] = &[
    Said(
        "distiller ID sum 18446744073709551615 255 ONE",
        Says::Distiller(Kernel::Sum, u64::MAX, 255, 1, None),
    ),
    Said(
        "distiller ID affine 9223372036854775807 -9223372036854775808 0 0018446744073709551615 000255 ONE",
        Says::Distiller(
            Kernel::Affine {
                a: i64::MAX,
                b: i64::MIN,
                d: 0,
            },
            u64::MAX,
            255,
            1,
            None,
        ),
    ),
    Said(
        " @0  distiller   ID  affine  -0  007 1 00  0  ONE   TWO ",
        Says::Distiller(Kernel::Affine { a: 0, b: 7, d: 1 }, 0, 0, 1, Some(2)),
    ),
    // These fit the form, although no output can have them: too many inputs, too few, the output itself.
    Said(
        "distiller ID sum 0 0 ONE TWO",
        Says::Distiller(Kernel::Sum, 0, 0, 1, Some(2)),
    ),
    Said(
        "distiller ID minus 0 0 ONE",
        Says::Distiller(Kernel::Minus, 0, 0, 1, None),
    ),
    Said(
        "distiller ID count 0 0 ID",
        Says::Distiller(Kernel::Count, 0, 0, 5, None),
    ),
    Said(
        "distiller ID hold 0 0 {00112233-4455-6677-8899-AABBCCDDEEFF} urn:uuid:00000000-0000-0000-0000-000000000001",
        Says::Distiller(
            Kernel::Hold,
            0,
            0,
            0x00112233445566778899aabbccddeeff,
            Some(1),
        ),
    ),
];

#[test]
fn bounds_of_a_distiller_are_read(rt: HostRuntime) -> Result<(), Fail> {
    all_hold(rt.alloc(), BOUNDS)
}

const CELLS: &[Said] = &[
    Said(
        "cell ID sum 2 1 ONE",
        Says::Distiller(Kernel::Cell { which: 1, p: 2 }, 0, 1, 1, None),
    ),
    Said(
        "cell ID mean 0 62 TWO",
        Says::Distiller(Kernel::Cell { which: 2, p: 0 }, 0, 62, 2, None),
    ),
    Said(
        "@0 cell ID least 62 0 ONE",
        Says::Distiller(Kernel::Cell { which: 3, p: 62 }, 0, 0, 1, None),
    ),
    Said(
        " @0  cell   ID  greatest  007 0010  ONE ",
        Says::Distiller(Kernel::Cell { which: 4, p: 7 }, 0, 10, 1, None),
    ),
    Said(
        "cell ID count 30 20 {00112233-4455-6677-8899-AABBCCDDEEFF}",
        Says::Distiller(
            Kernel::Cell { which: 5, p: 30 },
            0,
            20,
            0x00112233445566778899aabbccddeeff,
            None,
        ),
    ),
    Said(
        "cell urn:uuid:00000000-0000-0000-0000-000000000005 sum 5 4 TWO",
        Says::Distiller(Kernel::Cell { which: 1, p: 5 }, 0, 4, 2, None),
    ),
    // These fit the form, although no output can have them: windows or slots that are too wide, the output itself.
    Said(
        "cell ID sum 63 0 ONE",
        Says::Distiller(Kernel::Cell { which: 1, p: 63 }, 0, 0, 1, None),
    ),
    Said(
        "cell ID mean 255 255 ONE",
        Says::Distiller(Kernel::Cell { which: 2, p: 255 }, 0, 255, 1, None),
    ),
    Said(
        "cell ID count 0 63 ID",
        Says::Distiller(Kernel::Cell { which: 5, p: 0 }, 0, 63, 5, None),
    ),
];

#[test]
fn outputs_of_windows_are_read(rt: HostRuntime) -> Result<(), Fail> {
    all_hold(rt.alloc(), CELLS)
}

#[test]
fn an_output_of_windows_that_fits_no_form_has_none(rt: HostRuntime) -> Result<(), Fail> {
    fit_no_form(
        rt.alloc(),
        "cell\n\
         cell ID\n\
         cell ID sum\n\
         cell ID sum 2\n\
         cell ID sum 2 1\n\
         cell ID sum ONE\n\
         cell ID sum 2 ONE\n\
         cell ID 2 1 ONE\n\
         cell sum 2 1 ONE\n\
         cell x sum 2 1 ONE\n\
         cell 5 sum 2 1 ONE\n\
         cell ID sum 2 1 x\n\
         cell ID sum 2 1 0\n\
         cell ID sum 2 1 ONE TWO\n\
         cell ID sum 2 1 ONE x\n\
         cell ID sum 2 1 0 ONE\n\
         cell ID sum 256 1 ONE\n\
         cell ID sum 2 256 ONE\n\
         cell ID sum 18446744073709551616 1 ONE\n\
         cell ID sum 2 99999999999999999999999999 ONE\n\
         cell ID sum -2 1 ONE\n\
         cell ID sum 2 -1 ONE\n\
         cell ID sum -0 1 ONE\n\
         cell ID sum +2 1 ONE\n\
         cell ID sum 2 +1 ONE\n\
         cell ID sum 2.0 1 ONE\n\
         cell ID sum latest 1 ONE\n\
         cell ID 1 2 1 ONE\n\
         cell ID 5 2 1 ONE\n\
         cell ID Sum 2 1 ONE\n\
         cell ID SUM 2 1 ONE\n\
         cell ID sums 2 1 ONE\n\
         cell ID su 2 1 ONE\n\
         cell ID min 2 1 ONE\n\
         cell ID max 2 1 ONE\n\
         cell ID Count 2 1 ONE\n\
         cell ID delta 2 1 ONE\n\
         cell ID hold 2 1 ONE\n\
         cell ID minus 2 1 ONE TWO\n\
         cell ID affine 2 1 ONE\n\
         cell ID affine 1 2 3 2 1 ONE\n\
         cell ID range 2 1 ONE\n\
         Cell ID sum 2 1 ONE\n\
         CELL ID sum 2 1 ONE\n\
         cells ID sum 2 1 ONE\n\
         distiller ID cell 2 1 ONE\n\
         distiller ID cell sum 2 1 ONE",
    )
}

const REFRESHES: &[Said] = &[
    Said("refresh ID", Says::Refresh),
    Said("@0 refresh ID", Says::Refresh),
    Said(" @0  refresh   ID ", Says::Refresh),
];

#[test]
fn refreshes_are_read(rt: HostRuntime) -> Result<(), Fail> {
    all_hold(rt.alloc(), REFRESHES)
}

const RETIREMENTS: &[Said] = &[
    Said("retire ID 2", Says::Retire(2)),
    Said("@0 retire ID 0", Says::Retire(0)),
    Said(
        " retire  ID 18446744073709551615 ",
        Says::Retire(18446744073709551615),
    ),
];

#[test]
fn retirements_are_read(rt: HostRuntime) -> Result<(), Fail> {
    all_hold(rt.alloc(), RETIREMENTS)
}

#[test]
fn a_retirement_that_fits_no_form_has_none(rt: HostRuntime) -> Result<(), Fail> {
    fit_no_form(
        rt.alloc(),
        "retire\n\
         retire ID\n\
         retire 2\n\
         retire x 2\n\
         retire ID x\n\
         retire ID latest\n\
         retire ID -1\n\
         retire ID +1\n\
         retire ID 18446744073709551616\n\
         retire ID 2 3\n\
         retire ID ID 2\n\
         Retire ID 2\n\
         retires ID 2",
    )
}

#[test]
fn a_line_on_an_output_that_fits_no_form_has_none(rt: HostRuntime) -> Result<(), Fail> {
    fit_no_form(
        rt.alloc(),
        "distiller\n\
         distiller ID\n\
         distiller sum\n\
         distiller ID sum\n\
         distiller ID sum 1\n\
         distiller ID sum 1 2\n\
         distiller ID sum ONE\n\
         distiller ID sum 1 ONE\n\
         distiller ID 1 2 ONE\n\
         distiller sum 1 2 ONE\n\
         distiller x sum 1 2 ONE\n\
         distiller 5 sum 1 2 ONE\n\
         distiller ID sum 1 2 x\n\
         distiller ID sum 1 2 3\n\
         distiller ID sum 1 2 ONE x\n\
         distiller ID sum 1 2 ONE 3\n\
         distiller ID sum 1 2 ONE TWO ID\n\
         distiller ID minus 1 2 ONE TWO 3\n\
         distiller ID sum 18446744073709551616 2 ONE\n\
         distiller ID sum 1 256 ONE\n\
         distiller ID sum 1 99999999999999999999999999 ONE\n\
         distiller ID sum -1 2 ONE\n\
         distiller ID sum 1 -2 ONE\n\
         distiller ID sum 1 -0 ONE\n\
         distiller ID sum +1 2 ONE\n\
         distiller ID sum 1 +2 ONE\n\
         distiller ID sum latest 2 ONE\n\
         distiller ID sum 1.0 2 ONE\n\
         distiller ID Sum 1 2 ONE\n\
         distiller ID SUM 1 2 ONE\n\
         distiller ID sums 1 2 ONE\n\
         distiller ID su 1 2 ONE\n\
         distiller ID Hold 1 2 ONE TWO\n\
         distiller ID max 1 2 ONE\n\
         distiller ID range 1 2 ONE\n\
         distiller ID sum 1 2 3 4 5 ONE\n\
         distiller ID affine\n\
         distiller ID affine ONE\n\
         distiller ID affine 4 5 ONE\n\
         distiller ID affine 1 4 5 ONE\n\
         distiller ID affine 1 2 4 5 ONE\n\
         distiller ID affine 1 2 3 4 5\n\
         distiller ID affine 1 2 3 4 ONE\n\
         distiller ID affine 1 2 3 4 5 ONE TWO 6\n\
         distiller ID affine 1 2 3 4 5 6 ONE\n\
         distiller ID AFFINE 1 2 3 4 5 ONE\n\
         distiller ID affine 9223372036854775808 2 3 4 5 ONE\n\
         distiller ID affine 1 -9223372036854775809 3 4 5 ONE\n\
         distiller ID affine 1 2 9223372036854775808 4 5 ONE\n\
         distiller ID affine 1 2 +3 4 5 ONE\n\
         distiller ID affine 1 2 3 18446744073709551616 5 ONE\n\
         distiller ID affine 1 2 3 4 256 ONE\n\
         Distiller ID sum 1 2 ONE\n\
         distillers ID sum 1 2 ONE\n\
         distil ID sum 1 2 ONE\n\
         refresh\n\
         refresh 5\n\
         refresh x\n\
         refresh ID ID\n\
         refresh ID latest\n\
         refresh ID 1\n\
         Refresh ID\n\
         refreshes ID",
    )
}
