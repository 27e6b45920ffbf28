//! Worked files: a tree, and a trace of twelve processes against it.

/// The worked tree.
pub const TREE: &str = "\
{\"path\":\"/a\",\"kind\":\"dir\"}\n\
{\"path\":\"/b\",\"kind\":\"dir\"}\n\
{\"path\":\"/a/s\",\"kind\":\"dir\"}\n\
{\"path\":\"/dev\",\"kind\":\"dir\"}\n\
{\"path\":\"/a/f\",\"kind\":\"reg\"}\n\
{\"path\":\"/b/g\",\"kind\":\"reg\"}\n\
{\"path\":\"/dev/tty\",\"kind\":\"char\"}\n";

/// Twelve processes that descend from one; two of them are confined, one by itself and one through its parent.
pub const FAMILY: &str = "\
{\"op\":\"start\",\"pid\":1}\n\
{\"op\":\"nnp\",\"pid\":1}\n\
{\"op\":\"create\",\"pid\":1,\"rs\":3,\"fs\":[\"read_file\"]}\n\
{\"op\":\"fork\",\"pid\":1,\"child\":2}\n\
{\"op\":\"fork\",\"pid\":1,\"child\":3}\n\
{\"op\":\"add_path\",\"pid\":2,\"rs\":3,\"path\":\"/a\",\"fs\":[\"read_file\"]}\n\
{\"op\":\"restrict\",\"pid\":3,\"rs\":3}\n\
{\"op\":\"fork\",\"pid\":2,\"child\":4}\n\
{\"op\":\"fork\",\"pid\":2,\"child\":5}\n\
{\"op\":\"fork\",\"pid\":3,\"child\":6}\n\
{\"op\":\"fork\",\"pid\":3,\"child\":7}\n\
{\"op\":\"fork\",\"pid\":4,\"child\":8}\n\
{\"op\":\"fork\",\"pid\":4,\"child\":9}\n\
{\"op\":\"fork\",\"pid\":5,\"child\":10}\n\
{\"op\":\"fork\",\"pid\":5,\"child\":11}\n\
{\"op\":\"fork\",\"pid\":6,\"child\":12}\n\
{\"op\":\"open\",\"pid\":12,\"path\":\"/a/f\",\"fd\":4,\"mode\":\"r\"}\n\
{\"op\":\"open\",\"pid\":12,\"path\":\"/b/g\",\"fd\":5,\"mode\":\"r\"}\n\
{\"op\":\"open\",\"pid\":8,\"path\":\"/b/g\",\"fd\":4,\"mode\":\"r\"}\n\
{\"op\":\"restrict\",\"pid\":1,\"rs\":3}\n\
{\"op\":\"open\",\"pid\":1,\"path\":\"/b/g\",\"fd\":4,\"mode\":\"r\"}\n\
{\"op\":\"ftruncate\",\"pid\":9,\"fd\":4}\n\
{\"op\":\"mount\",\"pid\":7}\n\
{\"op\":\"exit\",\"pid\":10}\n\
{\"op\":\"open\",\"pid\":11,\"path\":\"/a/s\",\"fd\":4,\"mode\":\"r\"}\n";
