//! A command line of each command that works, for whoever typed another one.

/// What stands behind `sng` in a command line that works, of the command that this word names; of `serve`
/// where it names none.
pub fn example_of(word: &str) -> &'static str {
    match word {
        "play" => "play < first.script",
        "check" => "check first.script < first.book",
        "book" => "book - < first.book",
        "cover" => "cover 'a/+' 'a/#'",
        "may" => "may --policy policy.json s1 publish t/1",
        "policy" => "policy policy.json",
        "status" => "status 127.0.0.1:9884",
        "broker" => "broker --listen 127.0.0.1:1883",
        _ => {
            "serve --listen 0.0.0.0:1884 --broker 127.0.0.1:1883 --id gw1 --workers 1 --policy policy.json"
        }
    }
}
