//! The usage line of each program, as its page gives it. `tools/make-usage` writes this file.

/// How the program of this name is called, or nothing for a name without a page. `, or` stands between several ways.
pub fn usage_of(name: &[u8]) -> &'static [u8] {
    match name {
        b"background" => b"background { prog1 ... } prog2 ...".as_slice(),
        b"backtick" =>
            b"backtick [-i | -I | -D default] [-n | -N] [-E] var { prog1 ... } prog2 ...".as_slice(),
        b"cd" => b"cd dir prog ...".as_slice(),
        b"define" => b"define [-Cns] [-d delimiters] var value prog ...".as_slice(),
        b"elcheck" =>
            b"elcheck [-P | -S n | -s n] -c script, or elcheck [-P | -S n | -s n] file, or elcheck --sample n".as_slice(),
        b"elfamily" => b"elfamily [--tree] N words ...".as_slice(),
        b"elfmt" => b"elfmt [-ku] -c script, or elfmt [-ku] file".as_slice(),
        b"elgetopt" => b"elgetopt optstring prog ...".as_slice(),
        b"elgetpositionals" => b"elgetpositionals [-P n] prog ...".as_slice(),
        b"elglob" => b"elglob [-0] var pattern prog ...".as_slice(),
        b"ellint" => b"ellint [-P | -S n | -s n] file ...".as_slice(),
        b"elrecord" => b"elrecord file prog...".as_slice(),
        b"eltest" => b"eltest [expression]".as_slice(),
        b"eltrace" => b"eltrace script trace, or eltrace --show trace".as_slice(),
        b"emptyenv" => b"emptyenv [-p] prog ...".as_slice(),
        b"envfile" => b"envfile [-i | -I] file prog ...".as_slice(),
        b"exec" => b"exec [-c] prog ...".as_slice(),
        b"execline" => b"execline prog [args ...]".as_slice(),
        b"execlineb" =>
            b"execlineb [-q | -w | -W] [-P | -S n | -s n] -c script [args ...], or execlineb [-q | -w | -W] [-P | -S n | -s n] file [args ...]".as_slice(),
        b"exit" => b"exit [n]".as_slice(),
        b"export" => b"export var value prog ...".as_slice(),
        b"fdclose" => b"fdclose fd prog ...".as_slice(),
        b"fdmove" => b"fdmove [-c] to from prog ...".as_slice(),
        b"fdswap" => b"fdswap fd1 fd2 prog ...".as_slice(),
        b"forbacktickx" =>
            b"forbacktickx [-pE] [-o codes | -x codes] [-C] [-d delimiters] var { gen ... } prog ...".as_slice(),
        b"foreground" => b"foreground { prog1 ... } prog2 ...".as_slice(),
        b"forstdin" =>
            b"forstdin [-pE] [-o codes | -x codes] [-C] [-d delimiters] var prog ...".as_slice(),
        b"forx" => b"forx [-pE] [-o codes | -x codes] var { value ... } prog ...".as_slice(),
        b"heredoc" => b"heredoc fd text prog ...".as_slice(),
        b"if" => b"if [-Xn] [-t | -x code] { test ... } prog ...".as_slice(),
        b"ifelse" => b"ifelse [-Xn] { test ... } { then ... } prog ...".as_slice(),
        b"ifte" => b"ifte [-Xn] { then ... } { else ... } test ...".as_slice(),
        b"ifthenelse" =>
            b"ifthenelse [-X] { test ... } { then ... } { else ... } prog ...".as_slice(),
        b"import" => b"import [-i | -D default] [-uCns] [-d delimiters] envvar prog ...".as_slice(),
        b"importas" =>
            b"importas [-i | -D default] [-uCns] [-d delimiters] var envvar prog ...".as_slice(),
        b"loopwhilex" => b"loopwhilex [-n] [-x codes] prog ...".as_slice(),
        b"multidefine" =>
            b"multidefine [-Cn] [-d delimiters] value { var ... } prog ...".as_slice(),
        b"multisubstitute" => b"multisubstitute { directive ... } prog ...".as_slice(),
        b"pipeline" => b"pipeline [-r | -w] { prog1 ... } prog2 ...".as_slice(),
        b"piperw" => b"piperw r w prog ...".as_slice(),
        b"redirfd" => b"redirfd -r | -w | -u | -a | -c | -x fd file prog ...".as_slice(),
        b"shift" => b"shift [n] prog ...".as_slice(),
        b"unexport" => b"unexport var prog ...".as_slice(),
        b"wait" => b"wait { number ... } prog ...".as_slice(),
        b"withstdinas" => b"withstdinas [-n | -N] var prog ...".as_slice(),
        _ => b"".as_slice(),
    }
}
