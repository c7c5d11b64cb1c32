//! Rules in one line.

/// Returns the rule `name: left => right`, read over a table of slots. A condition may follow after `if`, or one that
/// must not hold after `if !`.
///
/// `rw!(alloc, table; "eta"; "(lam $x (app ?f (var $x)))" => "?f", if slot_free_in(alloc, x, "f")?)`
#[macro_export]
macro_rules! rw {
    ($alloc:expr, $table:expr; $name:expr; $left:expr => $right:expr, if !$condition:expr) => {
        $crate::rewrite::Rewrite::new_if(
            $alloc,
            $name,
            $left,
            $right,
            $crate::asking::not($condition),
            $table,
        )
    };
    ($alloc:expr, $table:expr; $name:expr; $left:expr => $right:expr, if $condition:expr) => {
        $crate::rewrite::Rewrite::new_if($alloc, $name, $left, $right, $condition, $table)
    };
    ($alloc:expr, $table:expr; $name:expr; $left:expr => $right:expr) => {
        $crate::rewrite::Rewrite::new($alloc, $name, $left, $right, $table)
    };
}
