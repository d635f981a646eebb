// What parts of a known width leave in a buffer, byte by byte.
use crate::{Part, put_all, put_list};
use answers::{Evidence, Table, Warning, WarningKind};
use sector::Fit;

#[test]
fn a_fit_is_put_where_it_fits(rt: HostRuntime) {
    let fit = Fit {
        step: 7,
        peak: 300,
        runner_up: 2,
        exact: true,
        tied: 1,
    };
    let mut out = [0xFF; 10];
    assert_eq!(rt; <Fit as Part>::put_at(&fit, &mut out, 1), 9);
    assert_eq!(rt; out, [0xFF, 7, 44, 1, 2, 0, 1, 1, 0, 0xFF]);
}

#[test]
fn evidence_and_a_warning_are_put_with_their_values(rt: HostRuntime) {
    let evidence = [
        Some(Evidence::ExactSectors {
            count: 258,
            dissent: 3,
        }),
        None,
    ];
    let mut out = [0xFF; 11];
    assert_eq!(rt; put_all(&mut out, 0, &evidence), 10);
    assert_eq!(rt; out, [2, 2, 1, 3, 0, 0, 0, 0, 0, 0, 0xFF]);
    let warning = Warning {
        page: 515,
        kind: WarningKind::LowConfidenceSector {
            sector: 4,
            peak: 5,
            runner_up: 6,
        },
    };
    let mut out = [0xFF; 34];
    assert_eq!(rt; <Warning as Part>::put_at(&warning, &mut out, 0), 33);
    assert_eq!(rt;
        out,
        [
            7, 3, 2, 0, 0, 0, 0, 0, 0, 4, 0, 0, 0, 0, 0, 0, 0, 5, 0, 0, 0, 0, 0, 0, 0, 6, 0, 0, 0,
            0, 0, 0, 0, 0xFF
        ]
    );
}

// Field by field four of them would leave four zeros here.
#[test]
fn a_place_that_is_not_used_is_put_whole_or_not_at_all(rt: HostRuntime) {
    let none: [Option<Evidence>; 4] = [None; 4];
    let mut short = [0xFF; 4];
    assert_eq!(rt; put_all(&mut short, 0, &none), 0);
    assert_eq!(rt; short, [0xFF; 4]);
    let mut longer = [0xFF; 6];
    assert_eq!(rt; put_all(&mut longer, 0, &none), 5);
    assert_eq!(rt; longer, [0, 0, 0, 0, 0, 0xFF]);
}

#[test]
fn a_list_is_its_number_and_its_places(rt: HostRuntime) {
    let list: Table<u8, 3> = Table::none().with(9);
    let mut out = [0xFF; 5];
    assert_eq!(rt; put_list(&mut out, 0, &list), 4);
    assert_eq!(rt; out, [1, 9, 0, 0, 0xFF]);
}
