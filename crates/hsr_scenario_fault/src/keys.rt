//! Which keys the tables of a scenario have.
use hsr_scenario::{
    AGE_KEYS, AT_LINK_KEYS, AT_PORT_KEYS, CLOCK_KEYS, DRAIN_KEYS, INJECT_KEYS, Key, LIFE_KEYS,
    LINK_KEYS, QUADBOX_KEYS, RING_KEYS, SEND_KEYS, STATION_KEYS, Spot, TAKE_KEYS, TOP_KEYS,
};
use toml::Table;

/// What a table may have: its keys, and the words that say it.
#[derive(Clone, Copy)]
pub(crate) struct Keys {
    pub keys: &'static [Key],
    pub words: &'static str,
}

/// What a node of this role may have.
fn of_node(role: &str) -> Keys {
    match role {
        "quadbox" => Keys {
            keys: &QUADBOX_KEYS,
            words: "a QuadBox has name and role",
        },
        "station" => Keys {
            keys: &STATION_KEYS,
            words: "a Station has name, role and macs",
        },
        _ => Keys {
            keys: &RING_KEYS,
            words: "a DANH or RedBox has name, role, mac and mode",
        },
    }
}

/// What a step of a node's own may have.
fn of_own_step(word: &str) -> Keys {
    match word {
        "send" => Keys {
            keys: &SEND_KEYS,
            words: "a send has do, node, to, type, payload, vlan, from and stream",
        },
        "life" => Keys {
            keys: &LIFE_KEYS,
            words: "a life has do, node, about and stream",
        },
        "age" => Keys {
            keys: &AGE_KEYS,
            words: "an age has do and node",
        },
        "clock" => Keys {
            keys: &CLOCK_KEYS,
            words: "a clock has do and at",
        },
        _ => Keys {
            keys: &DRAIN_KEYS,
            words: "a drain has do alone",
        },
    }
}

/// What a step of this word may have.
fn of_step(word: &str) -> Keys {
    match word {
        "put" | "judge" => Keys {
            keys: &AT_PORT_KEYS,
            words: "a put or judge has do and port",
        },
        "take" => Keys {
            keys: &TAKE_KEYS,
            words: "a take has do, link and dir",
        },
        "cut" | "mend" => Keys {
            keys: &AT_LINK_KEYS,
            words: "a cut or mend has do and link",
        },
        "inject" => Keys {
            keys: &INJECT_KEYS,
            words: "an inject has do, link, dir and octets",
        },
        _ => of_own_step(word),
    }
}

/// The text at a key of a table; none where it isn't there.
pub(crate) fn text_at<'a>(table: &'a Table, key: &str) -> &'a str {
    match table.get(key) {
        Some(value) => value.as_str().unwrap_or(""),
        None => "",
    }
}

/// What the table at an offset may have.
pub(crate) fn keys_at(spot: Spot, table: &Table) -> Keys {
    match spot {
        Spot::Top => Keys {
            keys: &TOP_KEYS,
            words: "a scenario has capacity, unit, node, link and step",
        },
        Spot::Node(_) => of_node(text_at(table, "role")),
        Spot::Link(_) => Keys {
            keys: &LINK_KEYS,
            words: "a link has ends",
        },
        Spot::Step(_) => of_step(text_at(table, "do")),
    }
}

/// The tables under a name, of which the one of that number.
pub(crate) fn table_in<'a>(document: &'a Table, name: &str, number: usize) -> Option<&'a Table> {
    document.get(name)?.as_array()?.get(number)?.as_table()
}

/// The table at an offset.
pub(crate) fn table_of(document: &Table, spot: Spot) -> Option<&Table> {
    match spot {
        Spot::Top => Some(document),
        Spot::Node(number) => table_in(document, "node", number),
        Spot::Link(number) => table_in(document, "link", number),
        Spot::Step(number) => table_in(document, "step", number),
    }
}
