//! Stations that a RedBox heard.
use hsr_frame::Mac;
use hsr_tables::ProxyTable;
use std::process::Abort;

/// An address that ends in this octet.
fn station(last: u8) -> Mac {
    Mac::new([2, 0, 0, 0, 0, last])
}

/// Learns of the station that ends in this octet at the moment of the same number.
fn learn(rt: &impl Abort, proxies: &mut ProxyTable, last: u8) {
    let at = u64::from(last);
    assert!(rt; proxies.last() <= at);
    proxies.learn(station(last), at);
}

/// Checks that a table that learned of 65 stations knows all but the first, the latest of them first.
fn check_latest(rt: &impl Abort, proxies: &ProxyTable) {
    assert!(rt; proxies.last() <= 64);
    assert!(rt; !proxies.knows(station(0), 64));
    assert!(rt; proxies.knows(station(1), 64));
    let list = proxies.list(64);
    assert!(rt; list.len() == 64);
    assert!(rt; list.first() == Some(&(station(64), 64)));
}

/// The station that was heard longest ago is dropped where there is no room. No network has that many stations behind one RedBox.
#[test]
fn oldest_station_is_given_up(rt: HostRuntime) {
    let mut proxies = ProxyTable::new();
    for last in 0..65 {
        learn(&rt, &mut proxies, last);
    }
    check_latest(&rt, &proxies);
}
