//! The ways of files under tables with one row.
use crate::{Codes, Way};
use mb_base::Bytes;
use mb_geom::{Desc, DescParts, Scheme};
use mb_rows::CodeFault;
use mb_tables::{Tables, make_row};
use std::test::Fail;

/// A file of so many symbols of 16 bytes.
fn described(rt: &HostRuntime, symbols: u64, scheme: Scheme) -> Option<Desc> {
    let parts = DescParts {
        location: Bytes::from_vec(Vec::new(rt.alloc())),
        content_length: Some(symbols.min(1_000) * 16),
        transfer_length: None,
        encoded: false,
        symbol: Some(16),
        scheme: Some(scheme),
        md5: None,
    };
    Desc::new(parts).ok()
}

/// Made tables with the one row of K = 5.
fn tables_of_5(rt: &HostRuntime) -> Result<Tables, Fail> {
    let mut tables = Tables::made(rt.alloc())?;
    tables.add(make_row(&tables, 5, 0)).ok().ok_or("the row")?;
    Ok(tables)
}

#[test]
fn a_file_has_ways_where_each_size_has_a_row(rt: HostRuntime) -> Result<(), Fail> {
    let mut codes = Codes::new(rt.alloc(), tables_of_5(&rt)?);
    let coded = Scheme::Raptor { z: 2, n: 1, al: 4 };
    let rows = [(10, true), (9, false), (11, false)];
    for (symbols, want) in rows {
        let desc = described(&rt, symbols, coded).expect(&rt, "a good file");
        assert_eq!(rt; codes.has_ways(&desc), want);
    }
    let desc = described(&rt, 10, coded).expect(&rt, "a good file");
    if codes.has_ways(&desc) {
        let ways = codes.ways(rt.alloc(), &desc)?;
        assert_eq!(rt; ways.count(), 2);
        assert!(rt; ways.is_raptor() && ways.code_bytes() > 0);
        if ways.count() == 2 {
            let way = ways.way(1)?;
            assert!(rt; way.size() == 5 && way.has(65_535) && way.code().is_some());
        }
    }
    codes.forget_unused();
    Ok(())
}

#[test]
fn a_block_has_its_way_or_no_row(rt: HostRuntime) -> Result<(), Fail> {
    let tables = tables_of_5(&rt)?;
    let rows = [
        (Scheme::NoCode { max_block: 4 }, 8, Some(4)),
        (Scheme::Raptor { z: 1, n: 1, al: 4 }, 5, Some(5)),
        (Scheme::Raptor { z: 1, n: 1, al: 4 }, 6, None),
    ];
    for (scheme, symbols, want) in rows {
        let desc = described(&rt, symbols, scheme).expect(&rt, "a good file");
        assert!(rt; desc.blocks() > 0);
        match Way::of(rt.alloc(), &tables, &desc, 0) {
            Ok(way) => assert_eq!(rt; Some(way.size()), want),
            Err(fault) => assert_eq!(rt; (fault, want), (CodeFault::NoRow(6), None)),
        }
    }
    Ok(())
}
