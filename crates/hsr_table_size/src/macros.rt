//! Macros over all sizes: calls of functions whose types have the size of a table, and words.

/// A call at the entries of a table of the chosen size: `at_size!(table => function[T](..))` is `function::<T, C>(..)`. The size of a
/// table is a constant of its type, so each size is a call of its own.
#[macro_export]
macro_rules! at_size {
    ($table:expr => $function:ident[$($kind:ty),*]$arguments:tt) => {
        match $table {
            $crate::TableSize::Small => $function::<$($kind,)* 4>$arguments,
            $crate::TableSize::Entries8 => $function::<$($kind,)* 8>$arguments,
            $crate::TableSize::Entries16 => $function::<$($kind,)* 16>$arguments,
            $crate::TableSize::Entries32 => $function::<$($kind,)* 32>$arguments,
            $crate::TableSize::Entries64 => $function::<$($kind,)* 64>$arguments,
            $crate::TableSize::Entries128 => $function::<$($kind,)* 128>$arguments,
            $crate::TableSize::Entries256 => $function::<$($kind,)* 256>$arguments,
            $crate::TableSize::Large => $function::<$($kind,)* 512>$arguments,
            $crate::TableSize::Entries1024 => $function::<$($kind,)* 1024>$arguments,
            $crate::TableSize::Entries2048 => $function::<$($kind,)* 2048>$arguments,
            $crate::TableSize::Entries4096 => $function::<$($kind,)* 4096>$arguments,
            $crate::TableSize::Entries8192 => $function::<$($kind,)* 8192>$arguments,
            $crate::TableSize::Entries16384 => $function::<$($kind,)* 16384>$arguments,
            $crate::TableSize::Entries32768 => $function::<$($kind,)* 32768>$arguments,
            $crate::TableSize::Entries65535 => $function::<$($kind,)* 65535>$arguments,
        }
    };
}

/// The words that choose a size of tables, behind others.
#[macro_export]
macro_rules! table_words {
    ($($other:literal),*) => {
        [
            $($other,)*
            "small",
            "large",
            "4",
            "8",
            "16",
            "32",
            "64",
            "128",
            "256",
            "512",
            "1024",
            "2048",
            "4096",
            "8192",
            "16384",
            "32768",
            "65535",
        ]
    };
}
